// A picture whose colours are from 0 to 1, and the colour that its pixels are compared with.
ghost use Rattle.std.specs.Prelude.{◌≡◌, true, ◌*◌, ◌+◌, ◌≤◌, length};
ghost use Rattle.colour.specs.Colour.{colours_ok, rgb_ok};
ghost use Rattle.colour.specs.steps.Pixel.{pixel_of};

use crate::Rgb;
use plane::size::Size;

// Three channels for each pixel, row after row.
#[derive(Clone, Copy)]
pub struct Picture<'a> {
    pub colours: &'a [f64],
    pub size: Size,
    ghost whole: { length colours.now ≡ 3 * (size.h * size.w) },
    ghost in_range: { colours_ok colours.now ≡ true },
}

// A colour whose channels are from 0 to 1.
#[derive(Clone, Copy)]
pub struct Reference {
    pub colour: Rgb,
    ghost in_range: { rgb_ok colour ≡ true },
}

// The colour of pixel i, whose three channels stand side by side.
pub fn pixel(colours: &[f64], i: usize) -> Rgb
    requires { 3 * i + 3 ≤ length colours.now }
    ensures { result ≡ pixel_of colours.now i }
{
    let k = 3 * i;
    Rgb {
        r: colours[k],
        g: colours[k + 1],
        b: colours[k + 2],
    }
}
