// Plane geometry: the public calls. Each answers its value or why it declines, and a call that declines writes nothing. Masks and sides
// come flat, as the C interface lends them.
#![tactic(auto)]

mod fill;
mod refusals;

ghost use Rattle.std.specs.Prelude.{◌≡◌, length};
ghost use Rattle.plane.specs.Refusal.{done_for};
ghost use Rattle.geometry.specs.Calls.{NearestCalled, LabelsCalled, SquaresCalled, DistanceCalled, FillCalled};
ghost use Rattle.geometry.specs.Refusal.{crop_refusal};
ghost use Rattle.geometry.specs.Crop.{crop_part};

use plane::Box;
use plane::answer::Refusal;
use plane::size::Mask;

// Row and column of the nearest on-pixel of each pixel; with nothing on, row -1 and column 0.
pub fn feature_transform(
    mask: &[u8],
    h: usize,
    w: usize,
    work: &mut [u32],
    rows: &mut [i32],
    cols: &mut [i32],
) -> Result<(), Refusal>
    ensures { NearestCalled mask.now h w
        work.old rows.old cols.old result
        work.new rows.new cols.new }
{
    let size = refusals::nearest_refusal(h, w, mask.len(), rows.len(), cols.len(), work.len())?;
    nearest::nearest_planes(Mask { pixels: mask, size }, work, rows, cols);
    Ok(())
}

// The labels of the parts of a mask, joined by steps up, down, left or right: 1 to n in raster order of each part's
// first pixel, 0 off the mask. The answer carries n.
pub fn label4(
    mask: &[u8],
    h: usize,
    w: usize,
    parents: &mut [u32],
    labels: &mut [u32],
) -> Result<u32, Refusal>
    ensures { LabelsCalled mask.now h w
        parents.old labels.old result
        parents.new labels.new }
{
    let size = refusals::plane_refusal(h, w, mask.len(), labels.len(), parents.len())?;
    Ok(labels::label(Mask { pixels: mask, size }, parents, labels))
}

// The dilation of a mask by the square of k rows and k columns each way: k is iterations, and 0 iterations mean the larger
// side.
pub fn binary_dilation8(
    mask: &[u8],
    h: usize,
    w: usize,
    iterations: u64,
    work: &mut [u8],
    out: &mut [u8],
) -> Result<(), Refusal>
    ensures { SquaresCalled mask.now h w iterations
        work.old out.old result
        work.new out.new }
{
    let size = refusals::plane_refusal(h, w, mask.len(), out.len(), work.len())?;
    squares::dilate(Mask { pixels: mask, size }, iterations, work, out);
    Ok(())
}

// dy² + dx² of each pixel from its nearest on-pixel; with nothing on, (y + 1)² + x².
pub fn square_distance(
    mask: &[u8],
    h: usize,
    w: usize,
    work: &mut [u32],
    out: &mut [u32],
) -> Result<(), Refusal>
    ensures { DistanceCalled mask.now h w
        work.old out.old result
        work.new out.new }
{
    let size = refusals::plane_refusal(h, w, mask.len(), out.len(), work.len())?;
    nearest::nearest_distances(Mask { pixels: mask, size }, work, out);
    Ok(())
}

// The colours with each pixel's taken from its nearest on-pixel, as bit patterns, channel c of pixel i at 3 * i + c;
// with nothing on, from pixel (h - 1, 0).
pub fn fill_transparent(
    colours: &[u64],
    mask: &[u8],
    h: usize,
    w: usize,
    work: &mut [u32],
    out: &mut [u64],
) -> Result<(), Refusal>
    ensures { FillCalled colours.now mask.now h w
        work.old out.old result
        work.new out.new }
{
    let size = refusals::fill_refusal(h, w, colours.len(), mask.len(), out.len(), work.len())?;
    nearest::nearest_indices(Mask { pixels: mask, size }, work);
    let indices = plane::any(mask).then_some(&work[..size.area()]);
    fill::colours_from(colours, size, indices, out);
    Ok(())
}

// Whether crop_row with the same arguments hands the row back, or why it declines.
pub fn crop_row_refusal(
    plane: &[u8],
    h: usize,
    w: usize,
    part: Box,
    y: usize,
) -> Result<(), Refusal>
    ensures { result ≡ done_for (crop_refusal (length plane.now) h w part.y0 part.y1 part.x0 part.x1 y) }
{
    refusals::crop_refusal(plane.len(), h, w, part, y)
}

// Row y of the part of the plane; declined, an empty one, and the call before says why: R37 asks for both.
pub fn crop_row(plane: &[u8], h: usize, w: usize, part: Box, y: usize) -> &[u8]
    ensures { result.now ≡ crop_part plane.now h w part.y0 part.y1 part.x0 part.x1 y }
{
    match crop_row_refusal(plane, h, w, part, y) {
        Ok(()) => &plane[y * w + part.x0..y * w + part.x1],
        Err(_) => &[],
    }
}
