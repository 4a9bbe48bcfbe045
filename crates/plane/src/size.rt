// The sides of a plane, and a mask with its sides.
ghost use Rattle.std.specs.Prelude.{◌≡◌, ◌+◌, ◌*◌, ◌<◌, [], ◌∷◌, length, take, drop, IfOk};
ghost use Rattle.plane.specs.Plane.{on_at};
ghost use Rattle.plane.specs.Refusal.{refusal_of, done_for, sides_ok, room_for};
ghost use Rattle.plane.specs.steps.Judged.{done};
ghost use Rattle.plane.specs.steps.Sides.{Sides};

use crate::answer::Refusal;

// The height and the width of a plane, neither 0 nor longer than the inner functions are proved for.
#[derive(Clone, Copy, Debug, PartialEq, Eq)]
pub struct Size {
    pub h: usize,
    pub w: usize,
    ghost sides: { Sides h w },
}

impl Size {
    // These sides, where the public calls accept them. They come as C lends them, and are a Size from here on.
    #[tactic(auto, unfolding(crate::specs::Refusal::refusal_of, crate::specs::Refusal::answer_for))]
    pub fn new(h: usize, w: usize) -> Result<Self, Refusal>
        ensures refusal { done result ≡ done_for (refusal_of ((1, sides_ok h w) ∷ [])) }
        ensures size { IfOk result (λ size. (size.h ≡ h) × (size.w ≡ w)) }
    {
        if crate::sides_ok(h, w) {
            Ok(Size { h, w })
        } else {
            Err(Refusal::Sides)
        }
    }

    // How many pixels a plane has.
    pub fn area(self) -> usize
        ensures { result ≡ self.h * self.w }
    {
        self.h * self.w
    }

    // How many numbers a work buffer holds at least.
    pub fn room(self) -> usize
        ensures { result ≡ room_for self.h self.w }
    {
        2 * (self.h * self.w) + 2 * (self.h + self.w) + 16
    }
}

// A mask that is read: a byte for each pixel, row after row, 0 for off.
#[derive(Clone, Copy)]
pub struct Mask<'a> {
    pub pixels: &'a [u8],
    pub size: Size,
    ghost whole: { length pixels.now ≡ size.h * size.w },
}

impl<'a> Mask<'a> {
    // Row y.
    pub fn row(self, y: usize) -> &'a [u8]
        requires { y < self.size.h }
        ensures value { result.now ≡ take self.entry.size.w (drop (y * self.entry.size.w) self.entry.pixels.now) }
        ensures len { length result.now ≡ self.entry.size.w }
    {
        let start = y * self.size.w;
        &self.pixels[start..start + self.size.w]
    }

    // Whether pixel (y, x) is on.
    #[tactic(auto, unfolding(crate::specs::Plane::on_at, crate::specs::Plane::on))]
    pub fn is_on(self, y: usize, x: usize) -> bool
        requires row { y < self.size.h }
        requires column { x < self.size.w }
        ensures { result ≡ on_at self.entry.pixels.now self.entry.size.w y x }
    {
        self.pixels[y * self.size.w + x] != 0
    }
}
