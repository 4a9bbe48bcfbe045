// The feature transform of a plane: the nearest on-pixel of each pixel, as row and column, as index, or as squared distance.
// First stage: the nearest on-row of each column, in two sweeps over the rows. Second stage: the line pass along each row.
// What stands between the stages is kept in one lent buffer: h rows of w numbers, and behind them three lines of w numbers:
// the nearest on-rows of the row at hand, their costs, and the sites of the line pass's stack.
// The loops that write a line, or lines of a plane, go by index: behind an adapter of `iter_mut` or `chunks_mut` nothing is known of what was
// written. That a line is short stays a clause: it is said of near, of costs and of cols, and cols is written, so that one type would not
// do. What is said of two slices at once (equal lengths, IsRow) is no ghost field of one,
// nor is how much room is lent, since what is lent is written.
#![tactic(auto)]

ghost use Rattle.std.specs.Prelude.{◌≡◌, cond, List, ℕ, ◌+◌, ◌*◌, ◌<◌, ◌≤◌, pos, length, take};
ghost use Rattle.std.specs.Prelude.{slice_index, slice_index_or, EachIndex};
ghost use Rattle.plane.specs.Plane.{on, index_of};
ghost use Rattle.line.specs.steps.Line.{most_length};
ghost use Rattle.nearest.specs.Nearest.{row_of, column_of, rows_plane, columns_plane, distance_plane};
ghost use Rattle.nearest.specs.steps.Stages.{no_row, nearer, square_cost, BelowFrom, Swept, pixel_in, IsRow, distance_in, Passed};
ghost use Rattle.nearest.specs.steps.Indices.{indices_plane};

use plane::size::Mask;

// Stands for the row of a column that has no on-pixel. A number and no Option, since it stands in the lent buffer of numbers.
const NO_ROW: u32 = 1073741824;

// The cost of a column that has no on-pixel; a number for the same reason.
const NO_COST: u32 = 4294967295;

// One more than the largest row.
const MOST_ROWS: u32 = 65536;

// Row y where its pixel is on, else the row from below.
#[tactic(auto, unfolding(plane::specs::Plane::on))]
fn own_row(b: u8, y: u32, below: u32) -> u32
    ensures { result ≡ cond (on b) y below }
{
    if b == 0 { below } else { y }
}

// For each column the first on-row at or below row y, from those of the row below.
fn below_line(mask: &[u8], y: u32, row: &mut [u32], next: &[u32])
    requires mask_long { length mask.now ≡ length row.old }
    requires next_long { length next.now ≡ length row.old }
    ensures { EachIndex row.new
        (λ x. slice_index row.new x ≡ cond (on (slice_index mask.now x)) y (slice_index next.now x)) }
{
    for x in 0..row.len() {
        row[x] = own_row(mask[x], y, next[x]);
    }
}

// The first sweep, from the last row up: each pixel's first on-row at or below it. The line behind the plane says that none is
// below the last row, and is the line from which the second sweep starts.
// It goes from row to row by a subtraction that ends at 0 and not by a product: of products the compiler knows that the rows go
// backwards, and then it does not test whether what is read and what is written lie apart, but goes on number by number.
fn below(mask: Mask, work: &mut [u32])
    requires { mask.size.h * mask.size.w + mask.size.w ≤ length work.old }
    ensures { BelowFrom mask.entry.pixels.now mask.entry.size.h mask.entry.size.w 0 work.new }
{
    let w = mask.size.w;
    let mut at = mask.size.area();
    work[at..at + w].fill(NO_ROW);
    for y in (0..mask.size.h).rev() {
        at = at.saturating_sub(w);
        let (_, rows) = work.split_at_mut(at);
        let (row, rest) = rows.split_at_mut(w);
        below_line(&mask.pixels[at..at + w], y as u32, row, &rest[..w]);
    }
}

// The row at hand: how far rows, columns and pixels are from it.
#[derive(Clone, Copy)]
struct Row {
    y: u32,
    ghost inside: { y < most_length },
}

impl Row {
    // Of a, the first on-row at or below row y, and b, the nearest of the row above: the nearer to y; b where they are equally near.
    // No row is above row 0.
    #[tactic(auto, unfolding(crate::specs::steps::Stages::nearer))]
    fn nearer(self, a: u32, b: u32) -> u32
        requires { (a ≤ no_row) × (b ≤ no_row) }
        ensures { result ≡ nearer self.y a b }
    {
        let y = self.y;
        if (y == 0) | (a + b < 2 * y) { a } else { b }
    }

    // For each column the nearest on-row of row y; near has it for the row above, and row the first on-row at or below.
    fn nearer_line(self, row: &[u32], near: &mut [u32])
        requires row_long { length row.now ≡ length near.old }
        requires row_low { EachIndex row.now (λ x. slice_index row.now x ≤ no_row) }
        requires near_low { EachIndex near.old (λ x. slice_index near.old x ≤ no_row) }
        ensures { EachIndex near.new
            (λ x. slice_index near.new x ≡ nearer self.y (slice_index row.now x) (slice_index near.old x)) }
    {
        for x in 0..near.len() {
            near[x] = self.nearer(row[x], near[x]);
        }
    }

    // The square of the distance to row r; NO_COST where r is no row.
    #[tactic(auto, unfolding(crate::specs::steps::Stages::square_cost, plane::specs::Plane::apart))]
    fn cost(self, r: u32) -> u32
        ensures { result ≡ square_cost self.y r }
    {
        let d = self.y.abs_diff(r);
        if r < MOST_ROWS { d * d } else { NO_COST }
    }

    // What each column costs, seen from row y.
    fn costs_line(self, near: &[u32], costs: &mut [u32])
        requires { length near.now ≡ length costs.old }
        ensures { EachIndex costs.new (λ x. slice_index costs.new x ≡ square_cost self.y (slice_index near.now x)) }
    {
        for x in 0..costs.len() {
            costs[x] = self.cost(near[x]);
        }
    }

    // The squared distance of place x to column i's on-pixel, which costs[i] lies from row y; with no such column, to row -1 and column 0.
    #[tactic(auto, unfolding(crate::specs::steps::Stages::distance_in, plane::specs::Plane::apart))]
    fn distance(self, costs: &[u32], x: usize, i: usize) -> u32
        requires short { length costs.now ≤ most_length }
        requires column_in { x < most_length }
        requires low { distance_in costs.now self.y x i ≤ 4294967295 }
        ensures { result ≡ distance_in costs.now self.y x i }
    {
        if i < costs.len() {
            let d = x.abs_diff(i);
            (costs[i] as usize + d * d) as u32
        } else {
            let s = self.y as usize + 1;
            (s * s + x * x) as u32
        }
    }

    // The squared distance of each place to its chosen column's on-pixel.
    fn distances_line(self, places: &[u32], costs: &[u32], out: &mut [u32])
        requires short { length costs.now ≤ most_length }
        requires places_long { length places.now ≡ length costs.now }
        requires out_long { length out.old ≡ length costs.now }
        requires low { EachIndex places.now (λ x. distance_in costs.now self.y x (slice_index places.now x) ≤ 4294967295) }
        ensures { EachIndex out.new
            (λ x. slice_index out.new x ≡ distance_in costs.now self.y x (slice_index places.now x)) }
    {
        for x in 0..out.len() {
            out[x] = self.distance(costs, x, places[x] as usize);
        }
    }
}

// The chosen column of each place of row y, that of its nearest on-pixel. They are written to the plane from `at` on, where nothing is
// needed any more. Then the first line has the nearest on-rows of row y, and the second what their columns cost.
fn choose(mask: Mask, y: usize, at: usize, plane: &mut [u32], lines: &mut [u32])
    requires row_in { y < mask.size.h }
    requires at_passed { at ≤ y * mask.size.w }
    requires plane_long { length plane.old ≡ mask.size.h * mask.size.w }
    requires lines_long { 3 * mask.size.w ≤ length lines.old }
    requires swept { Swept mask.pixels.now mask.size.h mask.size.w y plane.old lines.old }
    ensures { Passed mask.entry.pixels.now mask.entry.size.h mask.entry.size.w y at plane.old plane.new lines.new }
{
    let w = mask.size.w;
    let row = Row { y: y as u32 };
    let start = y * w;
    let (near, others) = lines.split_at_mut(w);
    let (costs, stack) = others.split_at_mut(w);
    row.nearer_line(&plane[start..start + w], near);
    row.costs_line(near, costs);
    line::line(&mut plane[at..at + w], costs, stack);
}

// The row of column i; -1 where there is no such column. That is an index past the end here, in what follows and in `Row::distance`, and no
// Option: the chosen columns stand in the lent buffer of numbers.
#[tactic(auto, unfolding(crate::specs::steps::Stages::pixel_in, crate::specs::Nearest::row_of))]
fn row_at(near: &[u32], i: usize) -> i32
    requires { IsRow near.now i }
    ensures { result ≡ row_of (pixel_in near.now i) }
{
    if i < near.len() { near[i] as i32 } else { -1 }
}

// Column i of w; 0 where there is no such column.
#[tactic(auto, unfolding(crate::specs::steps::Stages::pixel_in, crate::specs::Nearest::column_of))]
fn column_at(w: u32, i: u32) -> i32
    requires { w ≤ most_length }
    ensures { (near : List ℕ) → length near ≡ w → result ≡ column_of (pixel_in near i) }
{
    if i < w { i as i32 } else { 0 }
}

// The row of the chosen column's on-pixel of each place.
fn rows_line(places: &[u32], near: &[u32], rows: &mut [i32])
    requires long { length places.now ≡ length rows.old }
    requires chosen { EachIndex places.now (λ x. IsRow near.now (slice_index places.now x)) }
    ensures { EachIndex rows.new
        (λ x. slice_index_or rows.new x (pos 0) ≡ row_of (pixel_in near.now (slice_index places.now x))) }
{
    for x in 0..rows.len() {
        rows[x] = row_at(near, places[x] as usize);
    }
}

// The chosen column of each place.
// Rows and columns are written one after the other: both in one loop took up to twice as long on planes of 4096 by 4096, which lie a
// power of two apart, and not on those of 4095 or 4000.
fn columns_line(places: &[u32], cols: &mut [i32])
    requires short { length cols.old ≤ most_length }
    requires long { length places.now ≡ length cols.old }
    ensures { (near : List ℕ) → length near ≡ length cols.old → EachIndex cols.new
        (λ x. slice_index_or cols.new x (pos 0) ≡ column_of (pixel_in near (slice_index places.now x))) }
{
    let w = cols.len() as u32;
    for x in 0..cols.len() {
        cols[x] = column_at(w, places[x]);
    }
}

// Row and column of the nearest on-pixel of each pixel: the least dy² + dx², among equals the least column and then the least row.
// With nothing on, row -1 and column 0. The chosen columns of each row stand in the buffer's first row, which is no longer needed.
// This, nearest_indices and nearest_distances are no function over a closure: its clauses would have to say again what the calls behind
// choose say.
pub fn nearest_planes(mask: Mask, work: &mut [u32], rows: &mut [i32], cols: &mut [i32])
    requires room { mask.size.h * mask.size.w + 3 * mask.size.w ≤ length work.old }
    requires rows_long { length rows.old ≡ mask.size.h * mask.size.w }
    requires cols_long { length cols.old ≡ mask.size.h * mask.size.w }
    ensures rows_after { rows.new ≡ rows_plane mask.entry.pixels.now mask.entry.size.h mask.entry.size.w }
    ensures cols_after { cols.new ≡ columns_plane mask.entry.pixels.now mask.entry.size.h mask.entry.size.w }
{
    below(mask, work);
    let w = mask.size.w;
    let (plane, lines) = work.split_at_mut(mask.size.area());
    for y in 0..mask.size.h {
        choose(mask, y, 0, plane, lines);
        let places = &plane[..w];
        let start = y * w;
        // One call for each plane of answers; a plane of squared distances would be a third.
        rows_line(places, &lines[..w], &mut rows[start..start + w]);
        columns_line(places, &mut cols[start..start + w]);
    }
}

// The index of column i's on-pixel; 0 where there is no such column.
#[tactic(auto, unfolding(crate::specs::steps::Stages::pixel_in, plane::specs::Plane::index_of))]
fn index_at(near: &[u32], i: usize) -> u32
    requires short { length near.now ≤ most_length }
    requires chosen { IsRow near.now i }
    ensures { result ≡ index_of (length near.now) (pixel_in near.now i) }
{
    if i < near.len() {
        (near[i] as usize * near.len() + i) as u32
    } else {
        0
    }
}

// The index of the chosen column's on-pixel, in place of each place.
fn index_line(row: &mut [u32], near: &[u32])
    requires short { length near.now ≤ most_length }
    requires chosen { EachIndex row.old (λ x. IsRow near.now (slice_index row.old x)) }
    ensures { EachIndex row.new
        (λ x. slice_index row.new x ≡ index_of (length near.now) (pixel_in near.now (slice_index row.old x))) }
{
    for place in row.iter_mut() {
        *place = index_at(near, *place as usize);
    }
}

// The index of the nearest on-pixel of each pixel, in the first h * w numbers of the buffer; 0 where nothing is on.
pub fn nearest_indices(mask: Mask, work: &mut [u32])
    requires { mask.size.h * mask.size.w + 3 * mask.size.w ≤ length work.old }
    ensures { let size = mask.entry.size in take (size.h * size.w) work.new ≡ indices_plane mask.entry.pixels.now size.h size.w }
{
    below(mask, work);
    let w = mask.size.w;
    let (plane, lines) = work.split_at_mut(mask.size.area());
    for y in 0..mask.size.h {
        let start = y * w;
        choose(mask, y, start, plane, lines);
        index_line(&mut plane[start..start + w], &lines[..w]);
    }
}

// The squared distance of each pixel to its nearest on-pixel; with nothing on, to row -1 and column 0.
pub fn nearest_distances(mask: Mask, work: &mut [u32], out: &mut [u32])
    requires room { mask.size.h * mask.size.w + 3 * mask.size.w ≤ length work.old }
    requires out_long { length out.old ≡ mask.size.h * mask.size.w }
    requires low { mask.size.h * mask.size.h + mask.size.w * mask.size.w ≤ 4294967295 }
    ensures { out.new ≡ distance_plane mask.entry.pixels.now mask.entry.size.h mask.entry.size.w }
{
    below(mask, work);
    let w = mask.size.w;
    let (plane, lines) = work.split_at_mut(mask.size.area());
    for y in 0..mask.size.h {
        choose(mask, y, 0, plane, lines);
        let start = y * w;
        let row = Row { y: y as u32 };
        row.distances_line(&plane[..w], &lines[w..2 * w], &mut out[start..start + w]);
    }
}
