// The deep plane as a pass searches it.
ghost use Rattle.std.specs.Option.{ForSome};
ghost use Rattle.window.specs.steps.Window.{Made};

use plane::size::Mask;

// The deep plane, and the plane of the nearest deep pixels where that is made.
#[derive(Clone, Copy)]
pub struct Deep<'a, 'b> {
    pub mask: Mask<'a>,
    pub nearest: Option<&'b [u32]>,
    ghost made: { ForSome nearest (λ plane. Made mask.pixels.now plane.now mask.size.h mask.size.w) },
}
