// The line pass of the dilation by squares: along each row of a mask the running count of the window, block by block of columns. What
// holds its changes has a fixed size, however long a row is.
//
// The loops that write lines, or parts of them, go by index: after a `zip` of `iter_mut` or `chunks_mut` no proof knows what was written.
#![tactic(auto)]

ghost use Rattle.std.specs.Prelude.{◌≡◌, ◌+◌, ◌*◌, ◌≤◌, ◌++◌, length, drop};
ghost use Rattle.plane.specs.Search.{count_below};
ghost use Rattle.plane.specs.Mask.{is_on};
ghost use Rattle.plane.specs.steps.Sides.{longest_side};
ghost use Rattle.counts.specs.Running.{running};
ghost use Rattle.counts.specs.steps.Parts.{full_byte, rest_of};
ghost use Rattle.row_counts.specs.steps.Rows.{change_line, tally, ran_line, counted_part, dilated_row, dilated_rows};
ghost use Rattle.row_counts.specs.steps.Rows.{Changing, Steppable, Stepped, Runnable, Block};

use counts::Change;
use plane::size::Mask;

// How many columns of a row are stepped at a time, and how many of them a byte runs through.
const BLOCK: usize = 256;

const RUN: usize = 64;

// A row of a mask. A window reaches k pixels each way.
#[derive(Clone, Copy)]
struct Row<'a> {
    pixels: &'a [u8],
    k: usize,
    ghost wide: { length pixels.now ≤ longest_side },
    ghost near: { k ≤ longest_side },
}

// How many pixels of a line are on. growth counts those of a plane by a loop of its own, since a u32 may not hold them: one function for
// both would be given back here as a usize and made a u32.
fn count(line: &[u8]) -> u32
    requires { length line.now ≤ longest_side }
    ensures { result ≡ count_below (length line.now) (is_on line.now) }
{
    let mut n = 0;
    for m in line {
        n += u32::from(*m != 0);
    }
    n
}

// By how much a count changes, modulo 256, at each of a line of steps: by 1 where a pixel enters, and by 255, which is one less, where one
// leaves.
fn change_line(enter: &[u8], leave: &[u8], steps: &mut [u8])
    requires { Changing enter.now leave.now steps.old }
    ensures { steps.new ≡ change_line enter.now leave.now }
{
    for x in 0..enter.len() {
        steps[x] = u8::from(enter[x] != 0).wrapping_sub(u8::from(leave[x] != 0));
    }
}

// By how much the running count of a row changes, modulo 256, at each of the columns from column c on: the pixel k columns on enters,
// and the one k + 1 columns back leaves. Near the ends of the row some of these columns have no such pixel.
fn end_steps(row: Row, c: usize, steps: &mut [u8])
    requires { Steppable row.pixels.now c steps.old }
    ensures { Stepped row.entry.pixels.now row.entry.k c steps.new }
{
    let Row { pixels, k } = row;
    let w = pixels.len();
    let m = steps.len();
    let a = w.min(c + k);
    let b = w.min(c + m + k);
    counts::move_line(&pixels[a..b], Change::Enters.step(), &mut steps[..b - a]);
    let a = c.saturating_sub(k + 1);
    let b = (c + m).saturating_sub(k + 1);
    counts::move_line(
        &pixels[a..b],
        Change::Leaves.step(),
        &mut steps[m - (b - a)..],
    );
}

// The same; away from the ends a pixel enters and one leaves at every column, and one loop that takes both needs up to 20 % less time.
fn row_steps(row: Row, c: usize, steps: &mut [u8])
    requires { Steppable row.pixels.now c steps.old }
    ensures { Stepped row.entry.pixels.now row.entry.k c steps.new }
{
    let Row { pixels, k } = row;
    let m = steps.len();
    if c <= k || pixels.len() < c + m + k {
        end_steps(row, c, steps);
        return;
    }
    let a = c + k;
    let b = c - k - 1;
    change_line(&pixels[a..a + m], &pixels[b..b + m], steps);
}

// The running count through at most 127 steps, from n on, to its last value: a pixel is 1 where the count is above 0. Of the count a byte
// runs, at first as much of it as is at most 128: so it is 0 only where the count is.
fn run(steps: &[u8], n: u32, out: &mut [u8]) -> u32
    requires { Runnable steps.now n out.old }
    ensures value { result ≡ rest_of n + tally steps.now (full_byte n) (length steps.now) }
    ensures out_after { out.new ≡ ran_line steps.now (full_byte n) }
{
    let b = n.min(128);
    let mut v = b as u8;
    for x in 0..steps.len() {
        v = v.wrapping_add(steps[x]);
        out[x] = u8::from(v != 0);
    }
    n - b + u32::from(v)
}

// The columns from column c on of a row, as many as out has: a pixel is 1 where its window has an on-pixel. n is the running count
// before them; the count after them is handed back.
fn dilate_block(row: Row, c: usize, n: u32, out: &mut [u8]) -> u32
    requires { Block row.pixels.now row.k c n out.old }
    ensures value { let p = row.entry.pixels.now in result ≡ running (length p) row.entry.k (is_on p) (c + length out.old) }
    ensures out_after { out.new ≡ counted_part row.entry.pixels.now row.entry.k c (length out.old) }
{
    let m = out.len();
    let mut zeros = [0u8; BLOCK];
    let steps = &mut zeros[..m];
    row_steps(row, c, steps);
    if !plane::any(steps) {
        out.fill(u8::from(0 < n));
        return n;
    }
    let mut v = n;
    for x in (0..m).step_by(RUN) {
        let e = m.min(x + RUN);
        v = run(&steps[x..e], v, &mut out[x..e]);
    }
    v
}

// The line pass: each pixel of a row is 1 where the row has an on-pixel at most k away.
fn dilate_line(row: Row, out: &mut [u8])
    requires { length out.old ≡ length row.pixels.now }
    ensures { out.new ≡ dilated_row row.entry.pixels.now row.entry.k }
{
    let w = row.pixels.len();
    let mut n = count(&row.pixels[..w.min(row.k)]);
    for c in (0..w).step_by(BLOCK) {
        let e = w.min(c + BLOCK);
        n = dilate_block(row, c, n, &mut out[c..e]);
    }
}

// The line pass along each row of a mask.
pub fn dilate_rows(mask: Mask, k: usize, out: &mut [u8])
    requires near { k ≤ longest_side }
    requires out_size { mask.size.h * mask.size.w ≤ length out.old }
    ensures { let m = mask.entry in
        out.new ≡ dilated_rows m.pixels.now m.size.h m.size.w k ++ drop (m.size.h * m.size.w) out.old }
{
    let w = mask.size.w;
    for y in 0..mask.size.h {
        let s = y * w;
        dilate_line(
            Row {
                pixels: mask.row(y),
                k,
            },
            &mut out[s..s + w],
        );
    }
}
