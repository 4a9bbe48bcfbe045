// Growth (the core of unmix_fringe): passes that move the background into the object's anti-aliased rim. The loops that write a plane
// go by an index: after `zip` or `enumerate` over `iter_mut` it is not known what was written.
#![tactic(auto)]

ghost use Rattle.std.specs.Prelude.{◌≡◌, cond, ◌||◌, ℕ, ◌*◌, ◌+◌, ◌<◌, ◌≤◌, eqb, length, get_or};
ghost use Rattle.std.specs.Option.{ForSome};
ghost use Rattle.plane.specs.Plane.{on, bit, table};
ghost use Rattle.plane.specs.Search.{some_below};
ghost use Rattle.plane.specs.Mask.{is_on, mask_of};
ghost use Rattle.outline.specs.Growth.{is_joining, pass_of, growth_of};
ghost use Rattle.growth.specs.steps.Marks.{joins_with, edge_test, near_deep, near_mark, waits, search_mark, last_mark, decided_mark};
ghost use Rattle.growth.specs.steps.Marks.{Planes, Laid, Room};

mod deep;

use crate::deep::Deep;
use colour::Rgb;
use plane::size::{Mask, Size};

// The mark of a pixel that waits for its nearest shallow pixel. A number, and no enum: the marks stand in a lent plane of bytes.
const WAITS: u8 = 2;

// How far deep pixels are from the background (deep_reach).
const DEEP_REACH: u64 = 4;

// A picture, and the reference colour that its pixels are compared with. Its colours need not be in range, so it is no `Picture`. How long
// the marks and the planes are stays a clause: they are lent to be written.
#[derive(Clone, Copy)]
struct Photo<'a> {
    colours: &'a [f64],
    size: Size,
    reference: Rgb,
    ghost whole: { length colours.now ≡ 3 * (size.h * size.w) },
}

// The edge pixels, where there is a shallow pixel: neither background nor shallow.
fn edges(back: &[u8], shallow: &[u8], marks: &mut [u8])
    requires shallow_len { length shallow.now ≡ length back.now }
    requires marks_len { length marks.old ≡ length back.now }
    ensures { marks.new ≡ mask_of (length back.now) (edge_test back.now shallow.now) }
{
    for i in 0..back.len() {
        marks[i] = u8::from((back[i] == 0) & (shallow[i] == 0));
    }
}

// The shallow plane, the deep plane and the edge pixels of a background; no edge pixel where there is no shallow one.
fn lay(back: Mask, shallow: &mut [u8], deep: &mut [u8], marks: &mut [u8])
    requires shallow_len { length shallow.old ≡ back.size.h * back.size.w }
    requires deep_len { length deep.old ≡ back.size.h * back.size.w }
    requires marks_len { length marks.old ≡ back.size.h * back.size.w }
    ensures { let b = back.entry in Laid b.pixels.now b.size.h b.size.w shallow.new deep.new marks.new }
{
    squares::dilate(back, DEEP_REACH, marks, deep);
    plane::complement(deep);
    squares::dilate(back, 1, marks, shallow);
    plane::complement(shallow);
    if plane::any(shallow) {
        edges(back.pixels, shallow, marks);
    } else {
        marks.fill(0);
    }
}

impl<'a> Photo<'a> {
    // Whether pixel i joins if its body colour is that of pixel b.
    fn joins_with(self, b: usize, i: usize) -> bool
        requires b_in_bounds { b < self.size.h * self.size.w }
        requires i_in_bounds { i < self.size.h * self.size.w }
        ensures { result ≡ joins_with self.entry.colours.now self.entry.reference b i }
    {
        let full = colour::difference(colour::picture::pixel(self.colours, b), self.reference);
        let mixed = colour::difference(colour::picture::pixel(self.colours, i), self.reference);
        colour::joins(full, mixed)
    }
}

// The mark of a pixel after the search for its deep pixel: one that is not marked stays so. Whether there is a deep pixel is asked at each:
// a closure for each case would have the contract of both.
fn search_mark(photo: Photo, deep: Option<Deep>, mark: u8, i: usize) -> u8
    requires one_size { ForSome deep (λ d. d.mask.size ≡ photo.size) }
    requires i_bound { i < photo.size.h * photo.size.w }
    ensures { let p = photo.entry in result ≡ cond (on mark) (near_mark p.colours.now p.reference (near_deep deep.entry) i) 0 }
{
    if mark == 0 {
        return 0;
    }
    let Some(deep) = deep else {
        return WAITS;
    };
    match window::near_pixel(deep.mask, deep.nearest, i) {
        Some(b) => u8::from(photo.joins_with(b, i)),
        None => WAITS,
    }
}

// The marks after the search for deep pixels; whether a pixel waits.
fn search(photo: Photo, deep: Option<Deep>, marks: &mut [u8]) -> bool
    requires one_size { ForSome deep (λ d. d.mask.size ≡ photo.size) }
    requires marks_len { length marks.old ≡ photo.size.h * photo.size.w }
    ensures marks_after { let p = photo.entry in marks.new ≡ table
        (search_mark p.colours.now p.reference (near_deep deep.entry) marks.old) 0 (length marks.old) }
    ensures value { let p = photo.entry in result ≡ some_below (length marks.old) (λ (i : ℕ).
        eqb (search_mark p.colours.now p.reference (near_deep deep.entry) marks.old i) waits) }
{
    let mut found = false;
    for i in 0..marks.len() {
        let m = search_mark(photo, deep, marks[i], i);
        marks[i] = m;
        found |= m == WAITS;
    }
    found
}

// The last mark of a pixel: one that waits is decided by the pixel `body`.
fn last_mark(photo: Photo, body: usize, mark: u8, i: usize) -> u8
    requires body_in_bounds { body < photo.size.h * photo.size.w }
    requires i_in_bounds { i < photo.size.h * photo.size.w }
    ensures { result ≡ cond (eqb mark waits) (bit (joins_with photo.entry.colours.now photo.entry.reference body i)) mark }
{
    if mark != WAITS {
        return mark;
    }
    u8::from(photo.joins_with(body, i))
}

// The last marks, from the nearest shallow pixels.
fn decide_waiting(photo: Photo, nearest: &[u32], marks: &mut [u8])
    requires marks_len { length marks.old ≡ photo.size.h * photo.size.w }
    requires nearest_len { length nearest.now ≡ photo.size.h * photo.size.w }
    requires inside { (i : ℕ) → i < photo.size.h * photo.size.w → get_or nearest.now i 0 < photo.size.h * photo.size.w }
    ensures { marks.new ≡ table
        (last_mark photo.entry.colours.now photo.entry.reference nearest.now marks.old) 0 (length marks.old) }
{
    for i in 0..marks.len() {
        marks[i] = last_mark(photo, nearest[i] as usize, marks[i], i);
    }
}

// All joins take effect together: the marked pixels join the background; whether there is one.
fn settle(marks: &[u8], back: &mut [u8]) -> bool
    requires { length marks.now ≡ length back.old }
    ensures back_after { back.new ≡ mask_of (length back.old)
        (λ (i : ℕ). is_on back.old i || is_on marks.now i) }
    ensures value { result ≡ some_below (length back.old) (is_on marks.now) }
{
    let mut joined = false;
    for i in 0..back.len() {
        let m = marks[i] != 0;
        back[i] = u8::from((back[i] != 0) | m);
        joined |= m;
    }
    joined
}

// The background's bytes as 0 and 1. It shares no closure with `settle` and `plane::complement`: what a closure writes would need a
// contract as long as the loop.
fn tidy(back: &mut [u8])
    ensures { back.new ≡ mask_of (length back.old) (is_on back.old) }
{
    for b in back.iter_mut() {
        *b = u8::from(*b != 0);
    }
}

// Whether more than one pixel in 32 is marked, so that one transform costs less than the windows of all. A loop: `filter` with
// `count` is not compiled to many pixels at once.
fn many(marks: &[u8]) -> bool {
    let mut n = 0usize;
    for m in marks {
        n += usize::from(*m != 0);
    }
    marks.len() / 32 < n
}

// The marks of the pixels that join, from the edge pixels. The plane of the nearest deep pixels is made where it is worth it.
fn decide(photo: Photo, shallow: &[u8], deep: &[u8], nearest: &mut [u32], marks: &mut [u8])
    requires shallow_len { length shallow.now ≡ photo.size.h * photo.size.w }
    requires deep_len { length deep.now ≡ photo.size.h * photo.size.w }
    requires nearest_len { photo.size.h * photo.size.w + 3 * photo.size.w ≤ length nearest.old }
    requires marks_len { length marks.old ≡ photo.size.h * photo.size.w }
    ensures { let p = photo.entry in marks.new ≡ table
        (decided_mark p.colours.now p.reference deep.now shallow.now p.size.h p.size.w marks.old)
        0 (p.size.h * p.size.w) }
{
    let size = photo.size;
    let n = marks.len();
    let some = plane::any(deep);
    let made = some && many(marks);
    if made {
        nearest::nearest_indices(Mask { pixels: deep, size }, nearest);
    }
    let searched = Deep {
        mask: Mask { pixels: deep, size },
        nearest: made.then_some(&nearest[0..n]),
    };
    if search(photo, some.then_some(searched), marks) {
        let shallow = Mask {
            pixels: shallow,
            size,
        };
        nearest::nearest_indices(shallow, nearest);
        decide_waiting(photo, &nearest[0..n], marks);
    }
}

// One pass; whether a pixel joined. The work buffers stand apart: no call is covered that reads a field of a struct while another
// field is lent.
fn pass(
    photo: Photo,
    nearest: &mut [u32],
    shallow: &mut [u8],
    deep: &mut [u8],
    marks: &mut [u8],
    back: &mut [u8],
) -> bool
    requires { Planes photo.size.h photo.size.w nearest.old shallow.old deep.old marks.old back.old }
    ensures back_after { let p = photo.entry in back.new ≡ pass_of p.colours.now p.reference back.old p.size.h p.size.w }
    ensures value { let p = photo.entry in result ≡ some_below (p.size.h * p.size.w)
        (is_joining p.colours.now p.reference back.old p.size.h p.size.w) }
{
    let size = photo.size;
    lay(Mask { pixels: back, size }, shallow, deep, marks);
    decide(photo, shallow, deep, nearest, marks);
    settle(marks, back)
}

// At most `passes` passes, in planes of the picture's size; a pass without a join is the last.
fn run(
    photo: Photo,
    passes: u64,
    nearest: &mut [u32],
    shallow: &mut [u8],
    deep: &mut [u8],
    marks: &mut [u8],
    back: &mut [u8],
)
    requires { Planes photo.size.h photo.size.w nearest.old shallow.old deep.old marks.old back.old }
    ensures { let p = photo.entry in back.new ≡ growth_of p.colours.now p.reference p.size.h p.size.w passes back.old }
{
    for _ in 0..passes {
        if !pass(photo, nearest, shallow, deep, marks, back) {
            break;
        }
    }
    tidy(back);
}

// Growth: the background takes in the object's rim, in at most `passes` passes; a pass without a join is the last.
// The output is 0 and 1 whatever non-zero bytes came in; nearest, shallow, deep and marks are work space. Colours and size come apart: a
// `Picture` would ask for colours in range.
pub fn grow(
    colours: &[f64],
    size: Size,
    reference: Rgb,
    passes: u64,
    nearest: &mut [u32],
    shallow: &mut [u8],
    deep: &mut [u8],
    marks: &mut [u8],
    back: &mut [u8],
)
    requires { Room colours.now size.h size.w nearest.old shallow.old deep.old marks.old back.old }
    ensures { back.new ≡ growth_of colours.now reference size.h size.w passes back.old }
{
    let n = back.len();
    run(
        Photo {
            colours,
            size,
            reference,
        },
        passes,
        nearest,
        &mut shallow[0..n],
        &mut deep[0..n],
        &mut marks[0..n],
        back,
    );
}
