// The pass down the columns of a plane for the dilation by squares: row by row, so that memory is read in order, with a running count
// for each column of a strip. A strip has a fixed number of columns, however wide the plane is.
//
// The count of each column stands in two parts, a byte that follows every row and the rest, and is their sum. They are two arrays, and
// not one of pairs: so a row changes the bytes of many columns at once, and with numbers of
// 32 bits the pass took four times as long. They stay two parameters, since no struct of two `&mut` is covered.
//
// The loops that write lines, or parts of them, go by index: after a `zip` of `iter_mut` (tried in `test_line`) or `chunks_mut` no proof
// knows what was written.
#![tactic(auto)]

ghost use Rattle.std.specs.Prelude.{◌≡◌, ℕ, ◌+◌, ◌*◌, ◌<◌, ◌≤◌, length, IfSome};
ghost use Rattle.plane.specs.Search.{count_below};
ghost use Rattle.plane.specs.Mask.{is_on, mask_of};
ghost use Rattle.plane.specs.steps.Sides.{longest_side};
ghost use Rattle.counts.specs.steps.Parts.{moved_line};
ghost use Rattle.column_counts.specs.steps.Columns.{dilated_columns, balanced_low, balanced_rest, Balanceable, Balanced};
ghost use Rattle.column_counts.specs.steps.Strip.{on_strip, Counted, MovedRow, Following, Followed, Lines, Slidable, Slid, Start, Swept};

mod columns;

use columns::Strip;
use counts::Change;
use plane::size::Size;

// How many columns a strip has at most.
const STRIP: usize = 4096;

// The parts balanced: of each count as much as is at most 128 in the byte, and the rest of it.
fn balance(low: &mut [u8], rest: &mut [u32])
    requires { Balanceable low.old rest.old }
    ensures low_after { low.new ≡ balanced_low low.old rest.old }
    ensures rest_after { rest.new ≡ balanced_rest low.old rest.old }
{
    for x in 0..low.len() {
        let n = rest[x] + u32::from(low[x]);
        let b = n.min(128);
        low[x] = b as u8;
        rest[x] = n - b;
    }
}

// The same, where t rows have moved since they were balanced and two more might be too many for a byte. How many have moved since is
// handed back.
fn balance_after(t: usize, low: &mut [u8], rest: &mut [u32]) -> usize
    requires { Balanceable low.old rest.old }
    ensures { Balanced t low.old rest.old result low.new rest.new }
{
    if t <= 125 {
        return t;
    }
    balance(low, rest);
    0
}

// Row j of a strip, where there is one, enters the windows of its columns, or leaves them.
fn move_row(strip: Strip, j: Option<usize>, change: Change, low: &mut [u8])
    requires size { length low.old ≡ strip.n }
    requires row { IfSome j (λ j. j < strip.size.h) }
    ensures { MovedRow strip.entry j change low.old low.new }
{
    if let Some(j) = j {
        counts::move_line(strip.row(j), change.step(), low);
    }
}

// The first m rows enter the windows.
fn enter_rows(strip: Strip, m: usize, low: &mut [u8], rest: &mut [u32])
    requires size { length low.old ≡ strip.n }
    requires rows { m ≤ strip.size.h }
    requires zeros { Counted (λ _. 0) 0 low.old rest.old }
    ensures { Counted (λ (x : ℕ). count_below m (on_strip strip.entry x)) 127 low.new rest.new }
{
    let mut t = 0;
    for j in 0..m {
        t = balance_after(t, low, rest);
        move_row(strip, Some(j), Change::Enters, low);
        t += 1;
    }
}

// A pixel is 1 where the count of its column is above 0.
fn test_line(low: &[u8], out: &mut [u8])
    requires { length out.old ≡ length low.now }
    ensures { out.new ≡ mask_of (length low.now) (is_on low.now) }
{
    for x in 0..out.len() {
        out[x] = u8::from(low[x] != 0);
    }
}

// The bytes follow a line that enters and one that leaves, and are tested, in one pass: that takes up to 20 % less time than a loop for
// each, as `move_row` and `test_line` are where one of the lines is missing.
fn step_line(enter: &[u8], leave: &[u8], low: &mut [u8], out: &mut [u8])
    requires { Lines enter.now leave.now low.old out.old }
    ensures low_after { low.new ≡ moved_line leave.now 255 (moved_line enter.now 1 low.old) }
    ensures out_after { out.new ≡ mask_of (length low.old) (is_on low.new) }
{
    for x in 0..enter.len() {
        let v = low[x].wrapping_add(u8::from(enter[x] != 0));
        let v = v.wrapping_sub(u8::from(leave[x] != 0));
        low[x] = v;
        out[x] = u8::from(v != 0);
    }
}

// The bytes follow the window to row y, and are tested: the row k rows below enters, and the one k + 1 rows above leaves. Near the ends of
// the columns there may be no such row.
fn follow(strip: Strip, y: usize, low: &mut [u8], out: &mut [u8])
    requires { Following strip y low.old out.old }
    ensures { Followed strip.entry y low.old low.new out.new }
{
    let enter = (y + strip.k < strip.size.h).then_some(y + strip.k);
    let leave = y.checked_sub(strip.k + 1);
    if let (Some(j), Some(i)) = (enter, leave) {
        step_line(strip.row(j), strip.row(i), low, out);
    } else {
        move_row(strip, enter, Change::Enters, low);
        move_row(strip, leave, Change::Leaves, low);
        test_line(low, out);
    }
}

// The window slides to row y, and with it the counts, and a pixel is 1 where its count is above 0. t rows have moved since the counts were
// balanced; how many have then is handed back.
fn slide(
    strip: Strip,
    y: usize,
    t: usize,
    low: &mut [u8],
    rest: &mut [u32],
    out: &mut [u8],
) -> usize
    requires { Slidable strip y t low.old rest.old out.old }
    ensures { Slid strip.entry y result low.new rest.new out.new }
{
    let u = balance_after(t, low, rest);
    follow(strip, y, low, out);
    u + 2
}

// Row by row down a strip: the window slides, and its counts, which begin at 0, are tested.
fn sweep(strip: Strip, low: &mut [u8], rest: &mut [u32], out: &mut [u8])
    requires { Start strip low.old rest.old out.old }
    ensures { let s = strip.entry in Swept s.plane.now s.size.h s.size.w s.k s.c (s.c + s.n) s.size.h out.new }
{
    enter_rows(strip, strip.size.h.min(strip.k), low, rest);
    let mut t = 127;
    for y in 0..strip.size.h {
        let s = y * strip.size.w + strip.c;
        t = slide(strip, y, t, low, rest, &mut out[s..s + strip.n]);
    }
}

// The pass down the columns, strip by strip: each pixel is 1 where its column has an on-pixel at most k away.
pub fn dilate_columns(plane: &[u8], size: Size, k: usize, out: &mut [u8])
    requires near { k ≤ longest_side }
    requires plane_size { size.h * size.w ≤ length plane.now }
    requires out_size { length out.old ≡ size.h * size.w }
    ensures { out.new ≡ dilated_columns plane.now size.h size.w k }
{
    for c in (0..size.w).step_by(STRIP) {
        let n = STRIP.min(size.w - c);
        let mut low = [0u8; STRIP];
        let mut rest = [0u32; STRIP];
        let strip = Strip {
            plane,
            size,
            k,
            c,
            n,
        };
        sweep(strip, &mut low[..n], &mut rest[..n], out);
    }
}
