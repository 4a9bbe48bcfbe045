// The search of a window: the deep pixel nearest to a pixel, where it is near enough to give its body colour.
#![tactic(auto)]

ghost use Rattle.std.specs.Prelude.{◌≡◌, ◌+◌, ◌*◌, ◌<◌, ◌≤◌, ◌/◌, ◌%◌, leb, IfNone, IfSome};
ghost use Rattle.std.specs.Option.{ForSome};
ghost use Rattle.plane.specs.steps.Sides.{longest_side};
ghost use Rattle.nearest.specs.Nearest.{away};
ghost use Rattle.outline.specs.Growth.{body_reach};
ghost use Rattle.window.specs.steps.Window.{near_pixel, Cleared, RowFound, Searched, Made};

use plane::size::Mask;

// One more than the squared distance up to which a deep pixel gives the body colour (body_reach).
const TOO_FAR: usize = 37;

// The deep plane, and the pixel around which it is searched: row y, column x.
#[derive(Clone, Copy)]
struct Around<'a> {
    deep: Mask<'a>,
    y: usize,
    x: usize,
    ghost row: { y < deep.size.h },
    ghost column: { x < deep.size.w },
}

// The squared distance that a pixel has to be nearer than, and the nearest pixel found so far. Before one is found far is TOO_FAR, a
// bound like any later one; that there is none says `at`.
#[derive(Clone, Copy)]
struct Best {
    far: usize,
    at: Option<usize>,
}

impl<'a> Around<'a> {
    // The row of the on-pixel of column i that is nearest to row y, the upper one of two; none where the squared distance, with that
    // of the column, is not less than far. As far is at most 37, the row is at most 6 away.
    fn nearest_row(self, i: usize, across: usize, far: usize) -> Option<usize>
        requires column { i < self.deep.size.w }
        requires across_bound { across ≤ 36 }
        requires far_bound { far ≤ 37 }
        ensures none { let s = self.entry in IfNone result (Cleared s.deep.pixels.now s.deep.size.h s.deep.size.w s.y i across far) }
        ensures found { let s = self.entry in
            IfSome result (λ j. RowFound s.deep.pixels.now s.deep.size.h s.deep.size.w s.y i across far j) }
    {
        for e in 0..7usize {
            if far <= across + e * e {
                return None;
            }
            // Both rows are read before one test of the two: that takes less time than a test of each.
            let above = e <= self.y && self.deep.is_on(self.y - e, i);
            let below = self.y + e < self.deep.size.h && self.deep.is_on(self.y + e, i);
            if above | below {
                return Some(if above { self.y - e } else { self.y + e });
            }
        }
        None
    }

    // Column i is searched.
    fn column(self, i: usize, best: Best) -> Best
        requires column { i < self.deep.size.w }
        requires i_bound { i ≤ self.x + 6 }
        requires x_bound { self.x ≤ i + 6 }
        requires searched { Searched self.deep.pixels.now self.deep.size.h self.deep.size.w self.y self.x i best.far best.at }
        ensures { let s = self.entry in
            Searched s.deep.pixels.now s.deep.size.h s.deep.size.w s.y s.x (i + 1) result.far result.at }
    {
        let dx = self.x.abs_diff(i);
        match self.nearest_row(i, dx * dx, best.far) {
            None => best,
            Some(j) => {
                let dy = self.y.abs_diff(j);
                Best {
                    far: dx * dx + dy * dy,
                    at: Some(j * self.deep.size.w + i),
                }
            }
        }
    }

    // The nearest deep pixel where it is near enough: the columns at most 6 away, from the left.
    fn search(self) -> Option<usize>
        ensures { let s = self.entry in result ≡ near_pixel s.deep.pixels.now s.deep.size.h s.deep.size.w s.y s.x }
    {
        let mut best = Best {
            far: TOO_FAR,
            at: None,
        };
        for i in self.x.saturating_sub(6)..self.deep.size.w.min(self.x + 7) {
            best = self.column(i, best);
        }
        best.at
    }
}

// Whether the pixel of row j and column i is near enough to (y, x).
fn is_near(y: usize, x: usize, j: usize, i: usize) -> bool
    requires y_bound { y ≤ longest_side }
    requires x_bound { x ≤ longest_side }
    requires j_bound { j ≤ longest_side }
    requires i_bound { i ≤ longest_side }
    ensures { result ≡ leb (away y x j i) body_reach }
{
    let dy = y.abs_diff(j);
    let dx = x.abs_diff(i);
    dy * dy + dx * dx < TOO_FAR
}

// The deep pixel nearest to pixel i where it is near enough: from the plane of the nearest deep pixels where that is made, else by
// the search of the window. The choice stands here, at each pixel, and is no closure that growth chooses once: the loop over the marks
// would be generic in the closure, and its contract would have to say of it what this one says.
pub fn near_pixel(deep: Mask, nearest: Option<&[u32]>, i: usize) -> Option<usize>
    requires made { ForSome nearest (λ plane. Made deep.pixels.now plane.now deep.size.h deep.size.w) }
    requires i_bound { i < deep.size.h * deep.size.w }
    ensures { let d = deep.entry in result ≡ near_pixel d.pixels.now d.size.h d.size.w (i / d.size.w) (i % d.size.w) }
{
    let w = deep.size.w;
    let y = i / w;
    let x = i % w;
    match nearest {
        Some(plane) => {
            let b = plane[i] as usize;
            is_near(y, x, b / w, b % w).then_some(b)
        }
        None => Around { deep, y, x }.search(),
    }
}
