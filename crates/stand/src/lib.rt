// The C interface of the copy stand: the cut and its parts, nearest, labels and what stands beside them, on numbers and slices. A slice
// crosses as a pointer and then its length. Each call answers a number, 0 where it is accepted, and is what the call that it names is.
// Ground and cut have two symbols each, since C has no Option of a slice.
#![tactic(auto)]

ghost use Rattle.std.specs.Prelude.{◌≡◌, ℕ, Option, Result};
ghost use Rattle.plane.specs.declared.answer.Refusal.{Refusal};
ghost use Rattle.plane.specs.Refusal.{refusal_of_answer};
ghost use Rattle.geometry.specs.Calls.{NearestCalled, LabelsCalled, SquaresCalled, DistanceCalled, FillCalled};
ghost use Rattle.card.specs.Card.{Border, card_of};
ghost use Rattle.keying.specs.Calls.{growth_buffers, cut_buffers, GroundCalled, GrowthCalled, NextPassCalled};
ghost use Rattle.colour.specs.declared.Rgb.{Rgb};
ghost use Rattle.stand.specs.Exports.{Returns, CutReturns, labels_values, ground_values, cut_values, next_pass_values};

use colour::{Rgb, Settings};
use outline::Outcome;
use plane::answer::{self, Refusal};

// What the calls answer: records of C, with a number for the refusal and 0 in each field that has no value.

// The number of an answer of labels, and the number of parts, 0 where it was declined.
#[repr(C)]
#[derive(Clone, Copy, Debug, PartialEq)]
pub struct StandLabels {
    pub refusal: u32,
    pub parts: u32,
}

// What the cut answers: its number, whether it was keyed, and the crop box; all but the number 0 where it was declined.
#[repr(C)]
#[derive(Clone, Copy, Debug, PartialEq)]
pub struct StandCut {
    pub refusal: u32,
    pub keyed: bool,
    pub y0: usize,
    pub y1: usize,
    pub x0: usize,
    pub x1: usize,
}

// What the search of the ground answers: its number, whether it was found, and the reference, all +0 where it was not.
#[repr(C)]
#[derive(Clone, Copy, Debug, PartialEq)]
pub struct StandGround {
    pub refusal: u32,
    pub found: bool,
    pub reference: Rgb,
}

// What a look at the coming pass answers: its number, and how many pixels would join, 0 where it was declined.
#[repr(C)]
#[derive(Clone, Copy, Debug, PartialEq)]
pub struct StandNextPass {
    pub refusal: u32,
    pub joins: u64,
}

// The values of an answer, as they cross.
impl From<Result<u32, Refusal>> for StandLabels {
    ghost from_gives = { λ a r. r ≡ labels_values a };

    fn from(answer: Result<u32, Refusal>) -> Self {
        match answer {
            Ok(parts) => StandLabels { refusal: 0, parts },
            Err(refusal) => StandLabels {
                refusal: refusal.into(),
                parts: 0,
            },
        }
    }
}

impl From<Result<Option<Rgb>, Refusal>> for StandGround {
    ghost from_gives = { λ a r. r ≡ ground_values a };

    fn from(answer: Result<Option<Rgb>, Refusal>) -> Self {
        let none = Rgb {
            r: 0.0,
            g: 0.0,
            b: 0.0,
        };
        match answer {
            Ok(Some(reference)) => StandGround {
                refusal: 0,
                found: true,
                reference,
            },
            Ok(None) => StandGround {
                refusal: 0,
                found: false,
                reference: none,
            },
            Err(refusal) => StandGround {
                refusal: refusal.into(),
                found: false,
                reference: none,
            },
        }
    }
}

impl From<Result<Outcome, Refusal>> for StandCut {
    ghost from_gives = { λ a r. r ≡ cut_values a };

    fn from(answer: Result<Outcome, Refusal>) -> Self {
        match answer {
            Ok(cut) => StandCut {
                refusal: 0,
                keyed: cut.keyed,
                y0: cut.crop.y0,
                y1: cut.crop.y1,
                x0: cut.crop.x0,
                x1: cut.crop.x1,
            },
            Err(refusal) => StandCut {
                refusal: refusal.into(),
                keyed: false,
                y0: 0,
                y1: 0,
                x0: 0,
                x1: 0,
            },
        }
    }
}

impl From<Result<u64, Refusal>> for StandNextPass {
    ghost from_gives = { λ a r. r ≡ next_pass_values a };

    fn from(answer: Result<u64, Refusal>) -> Self {
        match answer {
            Ok(joins) => StandNextPass { refusal: 0, joins },
            Err(refusal) => StandNextPass {
                refusal: refusal.into(),
                joins: 0,
            },
        }
    }
}

// geometry::feature_transform
#[unsafe(no_mangle)]
pub extern "C" fn stand_nearest(
    mask: &[u8],
    h: usize,
    w: usize,
    work: &mut [u32],
    rows: &mut [i32],
    cols: &mut [i32],
) -> u32
    ensures { Returns refusal_of_answer (λ (a : Result Unit Refusal). NearestCalled mask.now h w
        work.old rows.old cols.old a
        work.new rows.new cols.new) result }
{
    answer::refusal_of(geometry::feature_transform(mask, h, w, work, rows, cols))
}

// geometry::label4
#[unsafe(no_mangle)]
pub extern "C" fn stand_labels(
    mask: &[u8],
    h: usize,
    w: usize,
    parents: &mut [u32],
    labels: &mut [u32],
) -> StandLabels
    ensures { Returns labels_values (λ (a : Result ℕ Refusal). LabelsCalled mask.now h w
        parents.old labels.old a
        parents.new labels.new) result }
{
    geometry::label4(mask, h, w, parents, labels).into()
}

// geometry::binary_dilation8
#[unsafe(no_mangle)]
pub extern "C" fn stand_squares(
    mask: &[u8],
    h: usize,
    w: usize,
    iterations: u64,
    work: &mut [u8],
    out: &mut [u8],
) -> u32
    ensures { Returns refusal_of_answer (λ (a : Result Unit Refusal). SquaresCalled mask.now h w iterations
        work.old out.old a
        work.new out.new) result }
{
    answer::refusal_of(geometry::binary_dilation8(mask, h, w, iterations, work, out))
}

// geometry::square_distance
#[unsafe(no_mangle)]
pub extern "C" fn stand_distance(
    mask: &[u8],
    h: usize,
    w: usize,
    work: &mut [u32],
    out: &mut [u32],
) -> u32
    ensures { Returns refusal_of_answer (λ (a : Result Unit Refusal). DistanceCalled mask.now h w
        work.old out.old a
        work.new out.new) result }
{
    answer::refusal_of(geometry::square_distance(mask, h, w, work, out))
}

// geometry::fill_transparent
#[unsafe(no_mangle)]
pub extern "C" fn stand_fill(
    colours: &[u64],
    mask: &[u8],
    h: usize,
    w: usize,
    work: &mut [u32],
    out: &mut [u64],
) -> u32
    ensures { Returns refusal_of_answer (λ (a : Result Unit Refusal). FillCalled colours.now mask.now h w
        work.old out.old a
        work.new out.new) result }
{
    answer::refusal_of(geometry::fill_transparent(colours, mask, h, w, work, out))
}

// keying::subject
#[unsafe(no_mangle)]
pub extern "C" fn stand_cut(
    colours: &[f64],
    alpha: &[u8],
    h: usize,
    w: usize,
    settings: Settings,
    nearest: &mut [u32],
    shallow: &mut [u8],
    deep: &mut [u8],
    marks: &mut [u8],
    mask: &mut [u8],
    weights: &mut [f64],
) -> StandCut
    ensures { CutReturns colours.now alpha.now h w Border settings
        (cut_buffers mask.old weights.old nearest.old shallow.old deep.old marks.old) result
        (cut_buffers mask.new weights.new nearest.new shallow.new deep.new marks.new) }
{
    keying::subject(
        colours, alpha, h, w, None, settings, nearest, shallow, deep, marks, mask, weights,
    )
    .into()
}

// keying::subject with a text
#[unsafe(no_mangle)]
pub extern "C" fn stand_cut_with_colour(
    colours: &[f64],
    alpha: &[u8],
    h: usize,
    w: usize,
    text: &[u8],
    settings: Settings,
    nearest: &mut [u32],
    shallow: &mut [u8],
    deep: &mut [u8],
    marks: &mut [u8],
    mask: &mut [u8],
    weights: &mut [f64],
) -> StandCut
    ensures { CutReturns colours.now alpha.now h w (card_of text.now) settings
        (cut_buffers mask.old weights.old nearest.old shallow.old deep.old marks.old) result
        (cut_buffers mask.new weights.new nearest.new shallow.new deep.new marks.new) }
{
    keying::subject(
        colours,
        alpha,
        h,
        w,
        Some(text),
        settings,
        nearest,
        shallow,
        deep,
        marks,
        mask,
        weights,
    )
    .into()
}

// keying::flat_background
#[unsafe(no_mangle)]
pub extern "C" fn stand_ground(
    colours: &[f64],
    h: usize,
    w: usize,
    tolerance: f64,
    work: &mut [u32],
    out: &mut [u8],
) -> StandGround
    ensures { Returns ground_values (λ (a : Result (Option Rgb) Refusal). GroundCalled colours.now h w Border tolerance
        work.old out.old a
        work.new out.new) result }
{
    keying::flat_background(colours, h, w, None, tolerance, work, out).into()
}

// keying::flat_background with a text
#[unsafe(no_mangle)]
pub extern "C" fn stand_ground_with_colour(
    colours: &[f64],
    h: usize,
    w: usize,
    text: &[u8],
    tolerance: f64,
    work: &mut [u32],
    out: &mut [u8],
) -> StandGround
    ensures { Returns ground_values (λ (a : Result (Option Rgb) Refusal). GroundCalled colours.now h w (card_of text.now) tolerance
        work.old out.old a
        work.new out.new) result }
{
    keying::flat_background(colours, h, w, Some(text), tolerance, work, out).into()
}

// keying::unmix_fringe
#[unsafe(no_mangle)]
pub extern "C" fn stand_growth(
    colours: &[f64],
    background: &[u8],
    h: usize,
    w: usize,
    reference: Rgb,
    passes: i64,
    nearest: &mut [u32],
    shallow: &mut [u8],
    deep: &mut [u8],
    marks: &mut [u8],
    out: &mut [u8],
) -> u32
    ensures { Returns refusal_of_answer (λ (a : Result Unit Refusal).
        GrowthCalled colours.now background.now h w reference passes
        (growth_buffers out.old nearest.old shallow.old deep.old marks.old) a
        (growth_buffers out.new nearest.new shallow.new deep.new marks.new)) result }
{
    answer::refusal_of(keying::unmix_fringe(
        colours, background, h, w, reference, passes, nearest, shallow, deep, marks, out,
    ))
}

// keying::next_pass
#[unsafe(no_mangle)]
pub extern "C" fn stand_next_pass(
    colours: &[f64],
    background: &[u8],
    h: usize,
    w: usize,
    reference: Rgb,
    nearest: &mut [u32],
    shallow: &mut [u8],
    deep: &mut [u8],
    marks: &mut [u8],
    out: &mut [u8],
) -> StandNextPass
    ensures { Returns next_pass_values (λ (a : Result ℕ Refusal).
        NextPassCalled colours.now background.now h w reference
        (growth_buffers out.old nearest.old shallow.old deep.old marks.old) a colours.exit.now background.exit.now
        (growth_buffers out.new nearest.new shallow.new deep.new marks.new)) result }
{
    keying::next_pass(
        colours, background, h, w, reference, nearest, shallow, deep, marks, out,
    )
    .into()
}
