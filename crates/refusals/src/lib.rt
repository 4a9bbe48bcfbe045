// What ground, growth and cut decline: the sides first, then the other tests in order. Lengths come before contents, so that nothing is
// read behind a wrong length, and colours are read no further than the first block with a wrong one. What judges lengths takes the sides
// flat and hands back a Size: the C interface lends numbers and slices. Each is the list of its own tests, as in geometry. Of ground and
// cut the lengths are judged by one function and what stands in the buffers by another, so that a text with the card's colour is read
// between the two.
#![tactic(auto)]

ghost use Rattle.std.specs.Prelude.{◌≡◌, length, IfOk};
ghost use Rattle.plane.specs.Refusal.{refusal_of, done_for};
ghost use Rattle.plane.specs.steps.Accepted.{HasSides};
ghost use Rattle.plane.specs.steps.Judged.{done};
ghost use Rattle.card.specs.steps.Named.{defined_card};
ghost use Rattle.colour.specs.Colour.{rgb_ok};
ghost use Rattle.outline.specs.Refusal.{ground_lengths, growth_lengths, cut_lengths, picture_tests, cut_contents, growth_refusal};

use card::Card;
use colour::{Rgb, Settings};
use plane::answer::{self, Refusal};
use plane::size::Size;

// How many numbers the four work buffers of growth and cut hold.
#[derive(Clone, Copy, Debug, PartialEq, Eq)]
pub struct WorkLengths {
    pub nearest: usize,
    pub shallow: usize,
    pub deep: usize,
    pub marks: usize,
}

// Whether the three channels of a colour are from 0 to 1.
fn rgb_ok(c: Rgb) -> bool
    ensures { result ≡ rgb_ok c }
{
    colour::colour_ok(c.r) & colour::colour_ok(c.g) & colour::colour_ok(c.b)
}

// Ground: the sides, where the lengths of the colours, the output and the work buffer are accepted.
pub fn ground_lengths(
    h: usize,
    w: usize,
    colours: usize,
    out: usize,
    work: usize,
) -> Result<Size, Refusal>
    ensures refusal { done result ≡ done_for (refusal_of (ground_lengths h w colours out work)) }
    ensures size { IfOk result (HasSides h w) }
{
    let size = Size::new(h, w)?;
    let n = size.area();
    answer::judge(&[
        (colours == 3 * n, Refusal::Inputs),
        (out == n, Refusal::Outputs),
        (size.room() <= work, Refusal::Outputs),
    ])?;
    Ok(size)
}

// Growth: the sides, where the lengths of the colours, the background, the output and four work buffers are accepted.
fn growth_lengths(
    h: usize,
    w: usize,
    colours: usize,
    back: usize,
    out: usize,
    work: WorkLengths,
) -> Result<Size, Refusal>
    ensures refusal { done result ≡ done_for (refusal_of (growth_lengths h w colours back out work.nearest work.shallow work.deep work.marks)) }
    ensures size { IfOk result (HasSides h w) }
{
    let size = Size::new(h, w)?;
    let n = size.area();
    let room = size.room();
    answer::judge(&[
        (colours == 3 * n, Refusal::Inputs),
        (back == n, Refusal::Inputs),
        (out == n, Refusal::Outputs),
        (room <= work.nearest, Refusal::Outputs),
        (room <= work.shallow, Refusal::Outputs),
        (room <= work.deep, Refusal::Outputs),
        (room <= work.marks, Refusal::Outputs),
    ])?;
    Ok(size)
}

// Cut: the sides, where the lengths of the colours, the alpha, two outputs and four work buffers are accepted.
pub fn cut_lengths(
    h: usize,
    w: usize,
    colours: usize,
    alpha: usize,
    mask: usize,
    weights: usize,
    work: WorkLengths,
) -> Result<Size, Refusal>
    ensures refusal { done result ≡ done_for (refusal_of (cut_lengths h w colours alpha mask weights
        work.nearest work.shallow work.deep work.marks)) }
    ensures size { IfOk result (HasSides h w) }
{
    let size = Size::new(h, w)?;
    let n = size.area();
    let room = size.room();
    answer::judge(&[
        (colours == 3 * n, Refusal::Inputs),
        (alpha == n, Refusal::Inputs),
        (mask == n, Refusal::Outputs),
        (weights == n, Refusal::Outputs),
        (room <= work.nearest, Refusal::Outputs),
        (room <= work.shallow, Refusal::Outputs),
        (room <= work.deep, Refusal::Outputs),
        (room <= work.marks, Refusal::Outputs),
    ])?;
    Ok(size)
}

// What a picture is declined for: a text that names no card's colour, its colours, then the tolerance. The card is judged apart, so that
// no colour is read where it is unreadable.
pub fn picture_refusal(card: Card, colours: &[f64], tolerance: f64) -> Result<(), Refusal>
    ensures { result ≡ done_for (refusal_of (picture_tests (defined_card card) colours.now tolerance)) }
{
    answer::judge(&[(card::readable(card), Refusal::CardColour)])?;
    answer::judge(&[
        (colour::colours_ok(colours), Refusal::Colours),
        (colour::is_finite(tolerance), Refusal::Tolerance),
    ])
}

// What a cut is declined for once its lengths are accepted: the picture, then an alpha that nowhere reaches the threshold.
pub fn cut_contents(card: Card, colours: &[f64], alpha: &[u8], s: Settings) -> Result<(), Refusal>
    ensures { result ≡ done_for (refusal_of (cut_contents (defined_card card) colours.now alpha.now (length alpha.now) s)) }
{
    picture_refusal(card, colours, s.key_bg_tolerance)?;
    answer::judge(&[(
        weights::some_reach(alpha, s.alpha_threshold),
        Refusal::Alpha,
    )])
}

// Growth: the sides, where its lengths are accepted, and its colours and the reference are from 0 to 1.
pub fn growth_refusal(
    colours: &[f64],
    back: usize,
    h: usize,
    w: usize,
    reference: Rgb,
    out: usize,
    work: WorkLengths,
) -> Result<Size, Refusal>
    ensures refusal { done result ≡ done_for (growth_refusal colours.now back h w reference out work.nearest work.shallow work.deep work.marks) }
    ensures size { IfOk result (HasSides h w) }
{
    let n = colours.len();
    let size = growth_lengths(h, w, n, back, out, work)?;
    answer::judge(&[
        (colour::colours_ok(colours), Refusal::Colours),
        (rgb_ok(reference), Refusal::Colours),
    ])?;
    Ok(size)
}
