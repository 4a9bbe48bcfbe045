// Squares: the dilation of a mask by a square (binary_dilation8), by a pass along each row and a pass down each column.
#![tactic(auto)]

ghost use Rattle.std.specs.Prelude.{◌≡◌, ◌*◌, ◌≤◌, length};
ghost use Rattle.squares.specs.Squares.{squares_plane};
ghost use Rattle.squares.specs.Work.{BitOrOld};
ghost use Rattle.squares.specs.steps.Radius.{radius_of};

use plane::size::{Mask, Size};

// The k that is used: the larger side for iterations 0, by R9, and for more iterations than that.
fn radius(size: Size, iterations: u64) -> usize
    ensures { result ≡ radius_of size.h size.w iterations }
{
    let side = size.h.max(size.w);
    if iterations == 0 {
        return side;
    }
    side.min(iterations as usize)
}

// The dilation of a mask by a square: a pixel of out is 1 where an on-pixel of the mask is within k, else 0. What the rows' pass gives
// goes to work.
pub fn dilate(mask: Mask, iterations: u64, work: &mut [u8], out: &mut [u8])
    requires work_size { mask.size.h * mask.size.w ≤ length work.old }
    requires out_size { length out.old ≡ mask.size.h * mask.size.w }
    ensures out_after { let m = mask.entry in out.new ≡ squares_plane m.pixels.now m.size.h m.size.w iterations }
    ensures bit_or_old { BitOrOld work.old work.new }
{
    let k = radius(mask.size, iterations);
    row_counts::dilate_rows(mask, k, work);
    column_counts::dilate_columns(work, mask.size, k, out);
}
