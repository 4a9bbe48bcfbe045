// Strips of a plane.
ghost use Rattle.std.specs.Prelude.{◌≡◌, ◌+◌, ◌*◌, ◌<◌, ◌≤◌, length};
ghost use Rattle.plane.specs.steps.Sides.{longest_side};
ghost use Rattle.column_counts.specs.steps.Columns.{strip_row};

use plane::size::Size;

// A strip of a plane: n of its columns, from column c on. A window reaches k rows each way.
#[derive(Clone, Copy)]
pub struct Strip<'a> {
    pub plane: &'a [u8],
    pub size: Size,
    pub k: usize,
    pub c: usize,
    pub n: usize,
    ghost near: { k ≤ longest_side },
    ghost whole: { size.h * size.w ≤ length plane.now },
    ghost inside: { c + n ≤ size.w },
}

impl<'a> Strip<'a> {
    // The pixels of row j.
    pub(crate) fn row(self, j: usize) -> &'a [u8]
        requires { j < self.size.h }
        ensures value { result.now ≡ strip_row self.entry.plane.now self.entry.size.w self.entry.c self.entry.n j }
        ensures len { length result.now ≡ self.entry.n }
    {
        let s = j * self.size.w + self.c;
        &self.plane[s..s + self.n]
    }
}
