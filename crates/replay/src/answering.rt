// What each kind of case answers. What a call writes stands in arrays here, of which the slice is taken that the sides ask for.
ghost use Rattle.std.specs.Prelude.{◌≡◌, ◌+◌, ◌*◌, ◌%◌, length};
ghost use Rattle.colour.specs.Settings.{passes_of};

use crate::calls;
use crate::case::{MOST_PIXELS, Mask, Picture, Request, Sides};
use crate::kind::Kind;
use crate::writing::{self, Labels, Places};
use colour::Settings;
use plane::answer::Refusal;
use std::io;

// The number of parts, and the labels.
fn labels<R: Print>(rt: &R, mask: Mask<'_>) -> io::Result<()> {
    let sides = mask.sides;
    let mut labels = [0u32; MOST_PIXELS];
    let labels = &mut labels[..sides.area()];
    match calls::labels(mask, labels) {
        Ok(parts) => {
            let labels = Labels { labels, sides };
            print!(rt; "{parts}\n{labels}")
        }
        Err(_) => Ok(()),
    }
}

// The dilated mask.
fn squares<R: Print>(rt: &R, mask: Mask<'_>, steps: u64) -> io::Result<()> {
    let sides = mask.sides;
    let mut pixels = [0u8; MOST_PIXELS];
    let pixels = &mut pixels[..sides.area()];
    match calls::dilated(mask, steps, pixels) {
        Ok(()) => rt.print(Mask { pixels, sides }),
        Err(_) => Ok(()),
    }
}

// The places of the nearest on-pixels.
fn nearest<R: Print>(rt: &R, mask: Mask<'_>) -> io::Result<()> {
    let sides = mask.sides;
    let mut rows = [0i32; MOST_PIXELS];
    let mut columns = [0i32; MOST_PIXELS];
    let rows = &mut rows[..sides.area()];
    let columns = &mut columns[..sides.area()];
    match calls::nearest(mask, rows, columns) {
        Ok(()) => rt.print(Places {
            rows,
            columns,
            sides,
        }),
        Err(_) => Ok(()),
    }
}

// The answer for a mask, of one of the three kinds of geometry. Their calls decline no mask, since it is whole and its sides fit.
pub(crate) fn of_mask<R: Print>(rt: &R, kind: Kind, mask: Mask<'_>, steps: u64) -> io::Result<()> {
    match kind {
        Kind::Labels => labels(rt, mask),
        Kind::Squares => squares(rt, mask, steps),
        _ => nearest(rt, mask),
    }
}

// The ground, or that there is none.
fn ground<R: Print>(rt: &R, picture: Picture<'_>, request: Request<'_>) -> io::Result<()> {
    let sides = picture.sides;
    let mut pixels = [0u8; MOST_PIXELS];
    let pixels = &mut pixels[..sides.area()];
    match calls::ground(picture, request, pixels) {
        Ok(Some(_)) => {
            let mask = Mask { pixels, sides };
            print!(rt; "found\n{mask}")
        }
        Ok(None) => print!(rt; "absent\n"),
        Err(refusal) => writing::refused(rt, refusal),
    }
}

// The cut: flag, crop, mask and weights.
fn cut<R: Print>(rt: &R, picture: Picture<'_>, request: Request<'_>) -> io::Result<()> {
    let sides = picture.sides;
    let mut pixels = [0u8; MOST_PIXELS];
    let mut weights = [0.0f64; MOST_PIXELS];
    let pixels = &mut pixels[..sides.area()];
    let weights = &mut weights[..sides.area()];
    let cut = calls::subject(picture, request, pixels, weights);
    writing::cut(rt, cut, Mask { pixels, sides }, weights)
}

// Ground, growth, and a look at the pass after it: how many pixels join, where there is a ground. The background after that pass is
// left in `background`.
fn look(
    picture: Picture<'_>,
    request: Request<'_>,
    background: &mut [u8],
    grown: &mut [u8],
) -> Result<Option<u64>, Refusal>
    requires background_len { length background.old ≡ picture.sides.h * picture.sides.w }
    requires grown_len { length grown.old ≡ picture.sides.h * picture.sides.w }
{
    let sides = picture.sides;
    let Some(reference) = calls::ground(picture, request, background)? else {
        return Ok(None);
    };
    let passes = request.settings.key_bg_fringe;
    let pixels = &*background;
    calls::grown(picture, Mask { pixels, sides }, reference, passes, grown)?;
    let pixels = &*grown;
    let joins = calls::next_pass(picture, Mask { pixels, sides }, reference, background)?;
    Ok(Some(joins))
}

// The pass that follows.
fn following<R: Print>(rt: &R, picture: Picture<'_>, request: Request<'_>) -> io::Result<()> {
    let sides = picture.sides;
    let mut background = [0u8; MOST_PIXELS];
    let mut grown = [0u8; MOST_PIXELS];
    let pixels = &mut background[..sides.area()];
    match look(picture, request, pixels, &mut grown[..sides.area()]) {
        Ok(Some(joins)) => {
            let mask = Mask { pixels, sides };
            print!(rt; "joins {joins}\n{mask}")
        }
        Ok(None) => print!(rt; "absent\n"),
        Err(refusal) => writing::refused(rt, refusal),
    }
}

// The answer for one picture: ground, the pass that follows, or else the cut.
pub(crate) fn of_picture<R: Print>(
    rt: &R,
    kind: Kind,
    picture: Picture<'_>,
    request: Request<'_>,
) -> io::Result<()> {
    match kind {
        Kind::Ground => ground(rt, picture, request),
        Kind::Following => following(rt, picture, request),
        _ => cut(rt, picture, request),
    }
}

// Whether pixel i is in the first or the last row or column.
fn on_border(sides: Sides, i: usize) -> bool {
    let (row, column) = (i / sides.w, i % sides.w);
    row == 0 || row == sides.h - 1 || column == 0 || column == sides.w - 1
}

// Whether two pictures have equal channels on the border and where a mask is on.
fn agree(first: Picture<'_>, second: Picture<'_>, near: Mask<'_>) -> bool {
    let colours = first.colours.chunks(3).zip(second.colours.chunks(3));
    let mut pixels = colours.zip(near.pixels).enumerate();
    pixels.all(|(i, ((a, b), mark))| a == b || (*mark == 0 && !on_border(near.sides, i)))
}

// Whether two pictures agree on the border and within so many steps of a ground; the pixels so near are left in `pixels`.
fn agree_within(
    first: Picture<'_>,
    second: Picture<'_>,
    ground: Mask<'_>,
    steps: u64,
    pixels: &mut [u8],
) -> bool
    requires { length pixels.old ≡ ground.sides.h * ground.sides.w }
{
    let sides = ground.sides;
    match calls::dilated(ground, steps, pixels) {
        Ok(()) => agree(first, second, Mask { pixels, sides }),
        Err(_) => false,
    }
}

// The passes of growth that the settings ask for, taken modulo 4096.
fn few_passes(settings: Settings) -> u64
    ensures { result ≡ passes_of settings % 4096 }
{
    colour::passes(settings) % 4096
}

// Whether two pictures agree within p + 3, and within p + 4, of the first one's ground, where it has one. The ground is left in `pixels`,
// and what is within p + 4 of it in `near`.
fn agreement(
    first: Picture<'_>,
    second: Picture<'_>,
    request: Request<'_>,
    pixels: &mut [u8],
    near: &mut [u8],
) -> Option<(bool, bool)>
    requires pixels_len { length pixels.old ≡ first.sides.h * first.sides.w }
    requires near_len { length near.old ≡ first.sides.h * first.sides.w }
{
    let sides = first.sides;
    let Ok(Some(_)) = calls::ground(first, request, pixels) else {
        return None;
    };
    let ground = Mask { pixels, sides };
    let passes = few_passes(request.settings);
    let three = agree_within(first, second, ground, passes + 3, near);
    let four = agree_within(first, second, ground, passes + 4, near);
    Some((three, four))
}

// Where two pictures agree, both cuts, and whether their masks are the same. Where a cut declines, its mask is what the comparison left
// there: the first one's ground, and what is within p + 4 of it.
pub(crate) fn of_pair<R: Print>(
    rt: &R,
    first: Picture<'_>,
    second: Picture<'_>,
    request: Request<'_>,
) -> io::Result<()> {
    let sides = first.sides;
    let n = sides.area();
    let mut first_mask = [0u8; MOST_PIXELS];
    let mut second_mask = [0u8; MOST_PIXELS];
    let mut weights = [0.0f64; MOST_PIXELS];
    let agreement = agreement(
        first,
        second,
        request,
        &mut first_mask[..n],
        &mut second_mask[..n],
    );
    writing::agreement(rt, agreement)?;
    let cut = calls::subject(first, request, &mut first_mask[..n], &mut weights[..n]);
    let first_mask = Mask {
        pixels: &first_mask[..n],
        sides,
    };
    writing::cut(rt, cut, first_mask, &weights[..n])?;
    let cut = calls::subject(second, request, &mut second_mask[..n], &mut weights[..n]);
    let second_mask = Mask {
        pixels: &second_mask[..n],
        sides,
    };
    writing::cut(rt, cut, second_mask, &weights[..n])?;
    writing::whether(rt, "same mask", first_mask.pixels == second_mask.pixels)
}
