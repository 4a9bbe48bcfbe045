// Keying: the public calls of the upper layer. Each answers its value or why it declines, and one that declines writes nothing. Pictures
// and sides come flat, as the C interface lends them. Ground and cut may be given a text that names the card's colour.
#![tactic(auto)]

ghost use Rattle.std.specs.Prelude.{◌≡◌, length};
ghost use Rattle.card.specs.steps.Named.{defined_card};
ghost use Rattle.keying.specs.Calls.{card_in, growth_buffers, cut_buffers, GroundCalled, GrowthCalled, NextPassCalled, Called};

use card::Card;
use colour::picture::Picture;
use colour::{Rgb, Settings};
use outline::Outcome;
use plane::answer::Refusal;
use plane::size::Mask;
use refusals::WorkLengths;

// The card of a call: the one whose colour the text names, and without a text one of no known colour.
fn card_lent(text: Option<&[u8]>) -> Card
    ensures { defined_card result ≡ card_in text.entry }
{
    match text {
        Some(text) => card::card_of(text),
        None => Card::Border,
    }
}

// The ground of a picture, as a mask, and the colour that it was compared with: the card's, where a text of six hexadecimal digits names
// it, else the reference of the border.
pub fn flat_background(
    colours: &[f64],
    h: usize,
    w: usize,
    text: Option<&[u8]>,
    tolerance: f64,
    work: &mut [u32],
    out: &mut [u8],
) -> Result<Option<Rgb>, Refusal>
    ensures { GroundCalled colours.now h w (card_in text.entry) tolerance work.old out.old result work.new out.new }
{
    let size = refusals::ground_lengths(h, w, colours.len(), out.len(), work.len())?;
    let card = card_lent(text);
    refusals::picture_refusal(card, colours, tolerance)?;
    let picture = Picture { colours, size };
    Ok(ground::flat_ground(picture, card, tolerance, work, out))
}

// A plane as it is. A loop, since `copy_from_slice` is the C library's `memmove`, and the archive asks no more of a host than `memcpy` and
// `memset`.
fn copy(from: &[u8], to: &mut [u8])
    requires { length from.now ≡ length to.old }
    ensures { to.new ≡ from.now }
{
    for i in 0..to.len() {
        to[i] = from[i];
    }
}

// The background after at most p passes of growth, written as 0 and 1; a negative p counts as 0.
pub fn unmix_fringe(
    colours: &[f64],
    background: &[u8],
    h: usize,
    w: usize,
    reference: Rgb,
    p: i64,
    nearest: &mut [u32],
    shallow: &mut [u8],
    deep: &mut [u8],
    marks: &mut [u8],
    out: &mut [u8],
) -> Result<(), Refusal>
    ensures { GrowthCalled colours.now background.now h w reference p
        (growth_buffers out.old nearest.old shallow.old deep.old marks.old) result
        (growth_buffers out.new nearest.new shallow.new deep.new marks.new) }
{
    // As in `subject`: a function for these lines would take the four buffers.
    let work = WorkLengths {
        nearest: nearest.len(),
        shallow: shallow.len(),
        deep: deep.len(),
        marks: marks.len(),
    };
    let back = background.len();
    let size = refusals::growth_refusal(colours, back, h, w, reference, out.len(), work)?;
    copy(background, out);
    let passes = colour::count_of(p);
    growth::grow(
        colours, size, reference, passes, nearest, shallow, deep, marks, out,
    );
    Ok(())
}

// The background after one more pass of growth, written as 0 and 1, and the number of its joins. The background that is lent stays.
pub fn next_pass(
    colours: &[f64],
    background: &[u8],
    h: usize,
    w: usize,
    reference: Rgb,
    nearest: &mut [u32],
    shallow: &mut [u8],
    deep: &mut [u8],
    marks: &mut [u8],
    out: &mut [u8],
) -> Result<u64, Refusal>
    ensures { NextPassCalled colours.now background.now h w reference
        (growth_buffers out.old nearest.old shallow.old deep.old marks.old) result
        colours.exit.now background.exit.now (growth_buffers out.new nearest.new shallow.new deep.new marks.new) }
{
    unmix_fringe(
        colours, background, h, w, reference, 1, nearest, shallow, deep, marks, out,
    )?;
    Ok(next_pass::newly_on(background, out))
}

// The cut: mask and weights of a picture by the five settings, with the colour of the card where a text names it, else the reference of
// the border.
pub fn subject(
    colours: &[f64],
    alpha: &[u8],
    h: usize,
    w: usize,
    text: Option<&[u8]>,
    s: Settings,
    nearest: &mut [u32],
    shallow: &mut [u8],
    deep: &mut [u8],
    marks: &mut [u8],
    mask: &mut [u8],
    weights: &mut [f64],
) -> Result<Outcome, Refusal>
    ensures { Called colours.now alpha.now h w (card_in text.entry) s
        (cut_buffers mask.old weights.old nearest.old shallow.old deep.old marks.old) result
        (cut_buffers mask.new weights.new nearest.new shallow.new deep.new marks.new) }
{
    let work = WorkLengths {
        nearest: nearest.len(),
        shallow: shallow.len(),
        deep: deep.len(),
        marks: marks.len(),
    };
    let size = refusals::cut_lengths(
        h,
        w,
        colours.len(),
        alpha.len(),
        mask.len(),
        weights.len(),
        work,
    )?;
    let card = card_lent(text);
    refusals::cut_contents(card, colours, alpha, s)?;
    let picture = Picture { colours, size };
    let keyed = cutting::cut_mask(picture, alpha, card, s, nearest, shallow, deep, marks, mask);
    weights::weights(mask, alpha, weights);
    let crop = cutting::crop_of(Mask { pixels: mask, size }, s.crop_to_alpha);
    Ok(Outcome { keyed, crop })
}
