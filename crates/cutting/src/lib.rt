// The cut of an accepted picture: its mask, whether it was keyed, and its crop box. The four work buffers stand apart: no call is covered
// that reads a field of a struct while another field is lent.
#![tactic(auto)]

ghost use Rattle.std.specs.Prelude.{◌≡◌, ◌*◌, length};
ghost use Rattle.card.specs.steps.Named.{defined_card};
ghost use Rattle.outline.specs.Border.{reference_on};
ghost use Rattle.outline.specs.Ground.{is_found};
ghost use Rattle.outline.specs.Cut.{is_keyed, cut_mask, margin, crop_of};
ghost use Rattle.cutting.specs.steps.Key.{keyed_plane, KeyRoom};

use card::Card;
use colour::Settings;
use colour::picture::{Picture, Reference};
use plane::Box;
use plane::size::Mask;

// How many pixels are added on each side of the mask's box (margin in the definitions).
const MARGIN: usize = 1;

// The ground of a picture taken out of a full mask: where it is found, it is grown, and turned over; else the mask stays full.
fn key(
    picture: Picture,
    reference: Reference,
    tolerance: f64,
    passes: u64,
    nearest: &mut [u32],
    shallow: &mut [u8],
    deep: &mut [u8],
    marks: &mut [u8],
    mask: &mut [u8],
) -> bool
    requires { KeyRoom picture.size nearest.old shallow.old deep.old marks.old mask.old }
    ensures value { let p = picture.entry in result ≡ is_found p.colours.now p.size.h p.size.w reference.colour tolerance }
    ensures mask_after { let p = picture.entry in
        mask.new ≡ keyed_plane p.colours.now p.size.h p.size.w reference.colour tolerance passes }
{
    let found = ground::ground_from(picture, reference, tolerance, nearest, mask);
    if let Some(colour) = found {
        let Picture { colours, size } = picture;
        growth::grow(
            colours, size, colour, passes, nearest, shallow, deep, marks, mask,
        );
    }
    plane::complement(mask);
    found.is_some()
}

// The mask of the cut; whether a ground was sought and found.
pub fn cut_mask(
    picture: Picture,
    alpha: &[u8],
    card: Card,
    s: Settings,
    nearest: &mut [u32],
    shallow: &mut [u8],
    deep: &mut [u8],
    marks: &mut [u8],
    mask: &mut [u8],
) -> bool
    requires room { KeyRoom picture.size nearest.old shallow.old deep.old marks.old mask.old }
    requires alpha_len { length alpha.now ≡ picture.size.h * picture.size.w }
    ensures value { let p = picture.entry in result ≡ is_keyed p.colours.now alpha.now p.size.h p.size.w
        (reference_on (defined_card card) p.colours.now p.size.h p.size.w) s }
    ensures mask_after { let p = picture.entry in mask.new ≡ cut_mask p.colours.now alpha.now p.size.h p.size.w
        (reference_on (defined_card card) p.colours.now p.size.h p.size.w) s }
{
    weights::reach(alpha, s.alpha_threshold, mask);
    let sought = s.key_bg & !plane::some_off(mask);
    if sought {
        let tolerance = s.key_bg_tolerance;
        let passes = colour::passes(s);
        let reference = ground::reference_on(picture, card, nearest);
        return key(
            picture, reference, tolerance, passes, nearest, shallow, deep, marks, mask,
        );
    }
    false
}

// The crop box: the mask's with its margin, or the whole picture where cropping is off or the mask is full.
pub fn crop_of(mask: Mask, cropping: bool) -> Box
    ensures { let m = mask.entry in result ≡ crop_of m.pixels.now m.size.h m.size.w margin cropping }
{
    let asked = cropping & plane::some_off(mask.pixels);
    if asked {
        return bounds::box_of(mask, MARGIN);
    }
    Box {
        y0: 0,
        y1: mask.size.h,
        x0: 0,
        x1: mask.size.w,
    }
}
