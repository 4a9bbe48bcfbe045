// The box of a mask: the first and the last row, and the first and the last column, that have an on-pixel, with a margin.
#![tactic(auto)]

ghost use Rattle.std.specs.Prelude.{◌≡◌, ◌≤◌, length};
ghost use Rattle.std.specs.Bool.{then_some};
ghost use Rattle.plane.specs.steps.Sides.{longest_side};
ghost use Rattle.plane.specs.Search.{some_below, first_below, last_below};
ghost use Rattle.plane.specs.Mask.{is_on};
ghost use Rattle.plane.specs.Box.{row_has, box_of};

use plane::size::Mask;

// The first on-pixel of a line. In a long line without one `any` sees that sooner.
fn first(line: &[u8]) -> Option<usize>
    ensures { let n = length line.now in let p = is_on line.now in result ≡ then_some (some_below n p) (first_below n p) }
{
    if !plane::any(line) {
        return None;
    }
    line.iter().position(|m| *m != 0)
}

// The last on-pixel of a line. It and `first` differ in the method of the library that they call.
fn last(line: &[u8]) -> Option<usize>
    ensures { let n = length line.now in let p = is_on line.now in result ≡ then_some (some_below n p) (last_below n p) }
{
    if !plane::any(line) {
        return None;
    }
    line.iter().rposition(|m| *m != 0)
}

// The last row with an on-pixel. A loop: in the closure of a `find` each row would have to be proved one of the mask.
fn last_row(mask: Mask) -> Option<usize>
    ensures { let h = mask.entry.size.h in let p = row_has mask.entry.pixels.now mask.entry.size.w in
        result ≡ then_some (some_below h p) (last_below h p) }
{
    for y in (0..mask.size.h).rev() {
        if plane::any(mask.row(y)) {
            return Some(y);
        }
    }
    None
}

// The box of a mask's on-pixels with a margin on each side, clamped to the picture. Of each row only what stands in front of
// the first column found so far, and from the last one on, is searched. As long as no column is found, no row is. The edges are numbers
// from the start, and no Options: the box of a mask without on-pixels is that of the edges h, w and 0, by definition.
pub fn box_of(mask: Mask, margin: usize) -> plane::Box
    requires { margin ≤ longest_side }
    ensures { let m = mask.entry in result ≡ box_of m.pixels.now m.size.h m.size.w margin }
{
    let h = mask.size.h;
    let w = mask.size.w;
    let mut y0 = 0;
    let mut x0 = w;
    let mut x1 = 0;
    for y in 0..h {
        let row = mask.row(y);
        x0 = first(&row[..x0]).unwrap_or(x0);
        x1 += last(&row[x1..]).unwrap_or(0);
        if x0 == w {
            y0 = y + 1;
        }
    }
    let y1 = last_row(mask).unwrap_or(0);
    plane::Box {
        y0: y0.saturating_sub(margin),
        y1: h.min(y1 + 1 + margin),
        x0: x0.saturating_sub(margin),
        x1: w.min(x1 + 1 + margin),
    }
}
