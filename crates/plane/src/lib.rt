// Planes of pixels: the largest side, boxes, the tests of sides and lengths, and small loops over masks that all crates share.
// The definitions stand in specs/, their laws in proofs/.
#![tactic(auto)]

ghost use Rattle.std.specs.Prelude.{◌≡◌, length};
ghost use Rattle.plane.specs.Search.{some_below};
ghost use Rattle.plane.specs.Mask.{is_on, some_off};
ghost use Rattle.plane.specs.steps.Complement.{complement_of};
ghost use Rattle.plane.specs.Refusal.{sides_ok};

pub mod answer;
pub mod size;

// The largest side that the public calls accept (most_side in specs/Plane.antt).
pub const MOST_SIDE: usize = 4096;

// Rows y0 to y1 and columns x0 to x1, ends excluded.
#[repr(C)]
#[derive(Clone, Copy, Debug, PartialEq, Eq)]
pub struct Box {
    pub y0: usize,
    pub y1: usize,
    pub x0: usize,
    pub x1: usize,
}

// Whether each side is from 1 to the largest side.
pub fn sides_ok(h: usize, w: usize) -> bool
    ensures { result ≡ sides_ok h w }
{
    (1 <= h) & (h <= MOST_SIDE) & (1 <= w) & (w <= MOST_SIDE)
}

// Whether some pixel is on. No early end: so the compiler tests many pixels at once.
pub fn any(mask: &[u8]) -> bool
    ensures { result ≡ some_below (length mask.now) (is_on mask.now) }
{
    mask.iter().fold(false, |found, m| found | (*m != 0))
}

// Whether some pixel is off. This and `any` share no function over a test: each is one line.
pub fn some_off(mask: &[u8]) -> bool
    ensures { result ≡ some_off mask.now (length mask.now) }
{
    mask.iter().fold(false, |found, m| found | (*m == 0))
}

// On and off exchanged, in place. flood's `settle` and growth's `tidy` have such a loop with another test: a closure would need a contract as
// long as the loop.
pub fn complement(mask: &mut [u8])
    ensures { mask.new ≡ complement_of mask.old }
{
    for m in mask.iter_mut() {
        *m = u8::from(*m == 0);
    }
}
