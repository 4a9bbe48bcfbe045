// What the calls of this crate decline: the sides first, then the other tests in order. The sides come flat, as the C interface lends them,
// and go on as a Size. Each function is the list of its own tests; over a closure that makes the list from the sides none is shorter.
ghost use Rattle.std.specs.Prelude.{◌≡◌, IfOk};
ghost use Rattle.plane.specs.Refusal.{done_for};
ghost use Rattle.plane.specs.steps.Accepted.{HasSides};
ghost use Rattle.plane.specs.steps.Judged.{done};
ghost use Rattle.geometry.specs.Refusal.{plane_refusal, nearest_refusal, fill_refusal, crop_refusal};

use plane::Box;
use plane::answer::{self, Refusal};
use plane::size::Size;

// Labels, squares and square distance: the sides, where the lengths of the mask, the output and the work buffer are accepted.
pub fn plane_refusal(
    h: usize,
    w: usize,
    mask: usize,
    out: usize,
    work: usize,
) -> Result<Size, Refusal>
    ensures refusal { done result ≡ done_for (plane_refusal h w mask out work) }
    ensures size { IfOk result (HasSides h w) }
{
    let size = Size::new(h, w)?;
    let n = size.area();
    answer::judge(&[
        (mask == n, Refusal::Inputs),
        (out == n, Refusal::Outputs),
        (size.room() <= work, Refusal::Outputs),
    ])?;
    Ok(size)
}

// Nearest: the same, for the lengths of the mask, the planes of rows and columns, and the work buffer.
pub fn nearest_refusal(
    h: usize,
    w: usize,
    mask: usize,
    rows: usize,
    cols: usize,
    work: usize,
) -> Result<Size, Refusal>
    ensures refusal { done result ≡ done_for (nearest_refusal h w mask rows cols work) }
    ensures size { IfOk result (HasSides h w) }
{
    let size = Size::new(h, w)?;
    let n = size.area();
    answer::judge(&[
        (mask == n, Refusal::Inputs),
        (rows == n, Refusal::Outputs),
        (cols == n, Refusal::Outputs),
        (size.room() <= work, Refusal::Outputs),
    ])?;
    Ok(size)
}

// Fill: the same, for the lengths of the colours, the mask, the output and the work buffer.
pub fn fill_refusal(
    h: usize,
    w: usize,
    colours: usize,
    mask: usize,
    out: usize,
    work: usize,
) -> Result<Size, Refusal>
    ensures refusal { done result ≡ done_for (fill_refusal h w colours mask out work) }
    ensures size { IfOk result (HasSides h w) }
{
    let size = Size::new(h, w)?;
    let n = size.area();
    answer::judge(&[
        (colours == 3 * n, Refusal::Inputs),
        (mask == n, Refusal::Inputs),
        (out == 3 * n, Refusal::Outputs),
        (size.room() <= work, Refusal::Outputs),
    ])?;
    Ok(size)
}

// Crop row: the length of the plane, the box, and the row.
pub fn crop_refusal(n: usize, h: usize, w: usize, part: Box, y: usize) -> Result<(), Refusal>
    ensures { result ≡ done_for (crop_refusal n h w part.y0 part.y1 part.x0 part.x1 y) }
{
    let size = Size::new(h, w)?;
    answer::judge(&[
        (n == size.area(), Refusal::Inputs),
        (part.y0 < part.y1, Refusal::Part),
        (part.y1 <= size.h, Refusal::Part),
        (part.x0 < part.x1, Refusal::Part),
        (part.x1 <= size.w, Refusal::Part),
        (part.y0 <= y, Refusal::Part),
        (y < part.y1, Refusal::Part),
    ])
}
