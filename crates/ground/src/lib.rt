// The ground of a picture without growth: the reference of its border or of its card, the close pixels, and those of them that the
// border reaches. How long the work buffer and the plane are stays a clause: they are lent to be written, and no struct of such buffers
// is covered.
#![tactic(auto)]

ghost use Rattle.std.specs.Prelude.{◌≡◌, true, ◌*◌, ◌<◌, ◌≤◌, leb, length};
ghost use Rattle.plane.specs.Refusal.{room_for};
ghost use Rattle.colour.specs.Colour.{colour_ok};
ghost use Rattle.card.specs.steps.Named.{defined_card};
ghost use Rattle.outline.specs.Border.{border_list, reference_channel, reference_of, reference_on};
ghost use Rattle.outline.specs.Ground.{close_plane, count_on, ground_plane};
ghost use Rattle.outline.specs.Answer.{found_reference};

use card::Card;
use colour::Rgb;
use colour::picture::{self, Picture, Reference};
use plane::size::Mask;

// The reference of channel c: the median of the border list's values. This loop and that of `mostly` go by place: flood says why the
// border's pixels have no iterator.
#[tactic(auto, using(flood::proofs::Border::by_place))]
fn channel(picture: Picture, c: usize, work: &mut [u32]) -> f64
    requires room { room_for picture.size.h picture.size.w ≤ length work.old }
    requires c_bound { c < 3 }
    ensures value { let p = picture.entry in result ≡ reference_channel p.colours.now p.size.h p.size.w c }
    ensures in_range { colour_ok result ≡ true }
{
    let colours = picture.colours;
    let n = flood::border_count(picture.size);
    for k in 0..n {
        let i = flood::border_pixel(picture.size, k);
        median::put(work, k, colours[3 * i + c]);
    }
    median::median(&work[0..2 * n])
}

// The reference colour of the border.
pub fn reference(picture: Picture, work: &mut [u32]) -> Reference
    requires room { room_for picture.size.h picture.size.w ≤ length work.old }
    ensures { let p = picture.entry in result.colour ≡ reference_of p.colours.now p.size.h p.size.w }
{
    let r = channel(picture, 0, work);
    let g = channel(picture, 1, work);
    let b = channel(picture, 2, work);
    let colour = Rgb { r, g, b };
    Reference { colour }
}

// The reference on a card: the colour that is given, or else that of the border.
pub fn reference_on(picture: Picture, card: Card, work: &mut [u32]) -> Reference
    requires room { room_for picture.size.h picture.size.w ≤ length work.old }
    ensures { let p = picture.entry in result.colour ≡ reference_on (defined_card card) p.colours.now p.size.h p.size.w }
{
    match card {
        Card::Given(named) => named,
        Card::Border | Card::Unreadable => reference(picture, work),
    }
}

// 1 where a pixel is close to the reference, else 0. By index: of what is written through a zip of `iter_mut` nothing is known.
fn close_plane(picture: Picture, reference: Reference, tolerance: f64, out: &mut [u8])
    requires { length out.old ≡ picture.size.h * picture.size.w }
    ensures { let p = picture.entry in out.new ≡ close_plane p.colours.now p.size.h p.size.w reference.colour tolerance }
{
    for i in 0..out.len() {
        let p = picture::pixel(picture.colours, i);
        out[i] = u8::from(colour::close(tolerance, reference.colour, p));
    }
}

// Whether at least nine tenths of the border list are on.
#[tactic(auto, using(flood::proofs::Border::by_place))]
fn mostly(mask: Mask) -> bool
    ensures { let border = border_list mask.entry.size.h mask.entry.size.w in
        result ≡ leb (9 * length border) (10 * count_on mask.entry.pixels.now border) }
{
    let total = flood::border_count(mask.size);
    let mut count = 0usize;
    for k in 0..total {
        let i = flood::border_pixel(mask.size, k);
        count += usize::from(mask.pixels[i] != 0);
    }
    9 * total <= 10 * count
}

// The ground for a reference colour, as a mask, and that colour where it is found, as the public call answers it; all 0 where it is not.
pub fn ground_from(
    picture: Picture,
    reference: Reference,
    tolerance: f64,
    work: &mut [u32],
    out: &mut [u8],
) -> Option<Rgb>
    requires room { room_for picture.size.h picture.size.w ≤ length work.old }
    requires out_len { length out.old ≡ picture.size.h * picture.size.w }
    ensures value { let p = picture.entry in
        result ≡ found_reference p.colours.now p.size.h p.size.w reference.colour tolerance }
    ensures out_after { let p = picture.entry in
        out.new ≡ ground_plane p.colours.now p.size.h p.size.w reference.colour tolerance }
{
    let size = picture.size;
    close_plane(picture, reference, tolerance, out);
    if !mostly(Mask { pixels: out, size }) {
        out.fill(0);
        return None;
    }
    flood::flood(size, work, out);
    if !plane::some_off(out) {
        out.fill(0);
        return None;
    }
    Some(reference.colour)
}

// The same for the reference on a card.
pub fn flat_ground(
    picture: Picture,
    card: Card,
    tolerance: f64,
    work: &mut [u32],
    out: &mut [u8],
) -> Option<Rgb>
    requires room { room_for picture.size.h picture.size.w ≤ length work.old }
    requires out_len { length out.old ≡ picture.size.h * picture.size.w }
    ensures value { let p = picture.entry in let on = reference_on (defined_card card) p.colours.now p.size.h p.size.w in
        result ≡ found_reference p.colours.now p.size.h p.size.w on tolerance }
    ensures out_after { let p = picture.entry in let on = reference_on (defined_card card) p.colours.now p.size.h p.size.w in
        out.new ≡ ground_plane p.colours.now p.size.h p.size.w on tolerance }
{
    let reference = reference_on(picture, card, work);
    ground_from(picture, reference, tolerance, work, out)
}
