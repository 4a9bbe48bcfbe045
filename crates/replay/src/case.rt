// What a case is: its kind, the sides of its planes, the planes, and what its line asks of a picture.
ghost use Rattle.std.specs.Prelude.{◌≡◌, ◌↔◌, ◌*◌, ◌≤◌, length, IsSome, IfSome};

use crate::kind::Kind;
use colour::Settings;

// The most pixels of a plane. Every array for a plane is as long, since there is no heap.
pub const MOST_PIXELS: usize = 1296;

// The sides of a plane that is neither empty nor too large.
#[derive(Clone, Copy, Debug, PartialEq, Eq)]
pub struct Sides {
    pub h: usize,
    pub w: usize,
    ghost some: { 1 ≤ h * w },
    ghost few: { h * w ≤ 1296 },
}

impl Sides {
    // These sides, if a plane of them is neither empty nor too large.
    pub(crate) fn new(h: usize, w: usize) -> Option<Self>
        ensures fit { IsSome result ↔ ((1 ≤ h * w) × (h * w ≤ 1296)) }
        ensures value { IfSome result (λ sides. (sides.h ≡ h) × (sides.w ≡ w)) }
    {
        let area = h.checked_mul(w)?;
        if area == 0 || MOST_PIXELS < area {
            return None;
        }
        Some(Sides { h, w })
    }

    // How many pixels a plane has.
    pub(crate) fn area(self) -> usize
        ensures { result ≡ self.h * self.w }
    {
        self.h * self.w
    }
}

// A case: the text from its line on, its kind, and the sides of its planes.
#[derive(Clone, Copy)]
pub struct Case<'a> {
    pub text: &'a [u8],
    pub kind: Kind,
    pub sides: Sides,
}

// A byte for each pixel, row after row, 0 for off.
#[derive(Clone, Copy)]
pub struct Mask<'a> {
    pub pixels: &'a [u8],
    pub sides: Sides,
    ghost whole: { length pixels.now ≡ sides.h * sides.w },
}

// Three channels for each pixel, side by side as the calls are lent them, and its alpha.
#[derive(Clone, Copy)]
pub struct Picture<'a> {
    pub colours: &'a [f64],
    pub alpha: &'a [u8],
    pub sides: Sides,
    ghost colours_whole: { length colours.now ≡ 3 * (sides.h * sides.w) },
    ghost alpha_whole: { length alpha.now ≡ sides.h * sides.w },
}

// What the line of a case asks of a picture: the settings, and the text of the card's colour where the case gives one.
#[derive(Clone, Copy)]
pub struct Request<'a> {
    pub settings: Settings,
    pub card: Option<&'a [u8]>,
}
