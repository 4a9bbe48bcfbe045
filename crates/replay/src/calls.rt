// The public calls of geometry and keying, each with work buffers of its own. A work buffer is an array that is long enough for every
// plane, because there is no heap; what a call writes stands in a slice that it is lent.
use crate::case::{Mask, Picture, Request};
use colour::Rgb;
use outline::Outcome;
use plane::answer::Refusal;

// What a work buffer of the largest plane holds at least: 2 × h × w + 2 × (h + w) + 16 numbers.
const WORK: usize = 5202;

// How many parts a mask has, and the label of each pixel.
pub(crate) fn labels(mask: Mask<'_>, labels: &mut [u32]) -> Result<u32, Refusal> {
    let (h, w) = (mask.sides.h, mask.sides.w);
    geometry::label4(mask.pixels, h, w, &mut [0u32; WORK], labels)
}

// The mask with the pixels that are at most so many steps away.
pub(crate) fn dilated(mask: Mask<'_>, steps: u64, dilated: &mut [u8]) -> Result<(), Refusal> {
    let (h, w) = (mask.sides.h, mask.sides.w);
    geometry::binary_dilation8(mask.pixels, h, w, steps, &mut [0u8; WORK], dilated)
}

// The row and the column of the nearest on-pixel of each pixel.
pub(crate) fn nearest(
    mask: Mask<'_>,
    rows: &mut [i32],
    columns: &mut [i32],
) -> Result<(), Refusal> {
    let (h, w) = (mask.sides.h, mask.sides.w);
    geometry::feature_transform(mask.pixels, h, w, &mut [0u32; WORK], rows, columns)
}

// The ground, as a mask, and its reference colour, by the card's colour where it is given.
pub(crate) fn ground(
    picture: Picture<'_>,
    request: Request<'_>,
    mask: &mut [u8],
) -> Result<Option<Rgb>, Refusal> {
    keying::flat_background(
        picture.colours,
        picture.sides.h,
        picture.sides.w,
        request.card,
        request.settings.key_bg_tolerance,
        &mut [0u32; WORK],
        mask,
    )
}

// The cut of a picture, by the card's colour where it is given.
pub(crate) fn subject(
    picture: Picture<'_>,
    request: Request<'_>,
    mask: &mut [u8],
    weights: &mut [f64],
) -> Result<Outcome, Refusal> {
    keying::subject(
        picture.colours,
        picture.alpha,
        picture.sides.h,
        picture.sides.w,
        request.card,
        request.settings,
        &mut [0u32; WORK],
        &mut [0u8; WORK],
        &mut [0u8; WORK],
        &mut [0u8; WORK],
        mask,
        weights,
    )
}

// The background after so many passes of growth.
pub(crate) fn grown(
    picture: Picture<'_>,
    background: Mask<'_>,
    reference: Rgb,
    passes: i64,
    grown: &mut [u8],
) -> Result<(), Refusal> {
    keying::unmix_fringe(
        picture.colours,
        background.pixels,
        picture.sides.h,
        picture.sides.w,
        reference,
        passes,
        &mut [0u32; WORK],
        &mut [0u8; WORK],
        &mut [0u8; WORK],
        &mut [0u8; WORK],
        grown,
    )
}

// A look at the pass that comes after a background: how many pixels join, and the background after it.
pub(crate) fn next_pass(
    picture: Picture<'_>,
    background: Mask<'_>,
    reference: Rgb,
    next: &mut [u8],
) -> Result<u64, Refusal> {
    keying::next_pass(
        picture.colours,
        background.pixels,
        picture.sides.h,
        picture.sides.w,
        reference,
        &mut [0u32; WORK],
        &mut [0u8; WORK],
        &mut [0u8; WORK],
        &mut [0u8; WORK],
        next,
    )
}
