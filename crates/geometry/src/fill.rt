// The loop of fill: the colours of the pixels that the plane of indices names. It goes by index: what is written through `chunks_mut`
// with `enumerate` is not known afterwards.
ghost use Rattle.std.specs.Prelude.{◌≡◌, ◌*◌, ◌-◌, ◌<◌, length};
ghost use Rattle.std.specs.Option.{ForSome};
ghost use Rattle.geometry.specs.steps.Source.{source_at, colours_from, Reads};

use plane::size::Size;

// The pixel that pixel i's colour is taken from: the one that the plane names, or, without a plane, the first of the last row. It is asked
// at each pixel: a closure for each case would have the contract of both.
fn source(indices: Option<&[u32]>, i: usize, last: usize) -> usize
    requires { ForSome indices (λ plane. i < length plane.now) }
    ensures { result ≡ source_at indices.entry last i }
{
    match indices {
        Some(plane) => plane[i] as usize,
        None => last,
    }
}

// The colours of the pixels that are named.
pub fn colours_from(colours: &[u64], size: Size, indices: Option<&[u32]>, out: &mut [u64])
    requires { Reads colours.now size indices out.old }
    ensures { out.new ≡ colours_from colours.now size indices.entry }
{
    let last = size.area() - size.w;
    for i in 0..size.area() {
        let s = 3 * source(indices, i, last);
        let t = i * 3;
        out[t..t + 3].copy_from_slice(&colours[s..s + 3]);
    }
}
