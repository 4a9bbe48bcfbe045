// The flood: which close pixels of a plane the border reaches by steps up, down, left and right.
#![tactic(auto)]

ghost use Rattle.std.specs.Prelude.{◌≡◌, ◌*◌, ◌<◌, ◌≤◌, IfSome, length, slice_index};
ghost use Rattle.plane.specs.steps.Buffer.{SameBuffer};
ghost use Rattle.outline.specs.Border.{border_list};
ghost use Rattle.outline.specs.Ground.{ground_from};
ghost use Rattle.flood.specs.steps.Flood.{state_of, visit_if, spread_top, seeded, marked, Room, Spreads, Closed};

use plane::size::Size;

// A close pixel to which no step came yet. A byte and no enum, as GROUND is: they stand in the plane that the caller lends.
const CLOSE: u8 = 1;

// A close pixel to which a step came.
const GROUND: u8 = 2;

// How many pixels the border list has.
#[tactic(auto, using(crate::proofs::Border::by_place))]
pub fn border_count(size: Size) -> usize
    ensures { result ≡ length (border_list size.h size.w) }
{
    2 * size.w + 2 * size.h.saturating_sub(2)
}

// Pixel k of the border list. By place: an iterator of these pixels takes 32 lines to write, and saves one in each of three loops.
#[tactic(auto, using(crate::proofs::Border::by_place))]
pub fn border_pixel(size: Size, k: usize) -> usize
    requires { k < length (border_list size.h size.w) }
    ensures { result ≡ slice_index (border_list size.h size.w) k }
{
    let Size { h, w } = size;
    if k < w {
        return k;
    }
    if k < 2 * w {
        return (h - 1) * w + (k - w);
    }
    let y = k - 2 * w + 1;
    if y < h - 1 {
        y * w
    } else {
        (y - (h - 2)) * w + (w - 1)
    }
}

// The pixels that are to be spread from: a lent buffer, and how many of its numbers are taken. The memory is lent,
// since no call has a heap. How long it is, and that the plane holds 0 and 1 at first (Closed), are clauses of three functions, since
// no ghost field may speak of what a `&mut` holds; and so is SameBuffer.
#[derive(Drop)]
struct Stack<'a> {
    pixels: &'a mut [u32],
    top: usize,
}

impl Stack<'_> {
    // A pixel becomes ground and is pushed, if there is one and it is close and not ground yet.
    #[tactic(auto, unfolding(crate::specs::steps::Flood::visit_if))]
    fn visit(&mut self, pixel: Option<usize>, out: &mut [u8])
        requires pixel_in_bounds { IfSome pixel (λ q. q < length out.old) }
        requires room { Room (state_of self.old out.old) }
        ensures visited { state_of self.new out.new ≡ visit_if pixel (state_of self.old out.old) }
        ensures same_buffer { SameBuffer self.old.pixels self.new.pixels }
    {
        match pixel {
            Some(q) if out[q] == CLOSE => {
                out[q] = GROUND;
                self.pixels[self.top] = q as u32;
                self.top += 1;
            }
            _ => {}
        }
    }

    // The pixel on top is taken off, and its four neighbours are visited.
    fn spread(&mut self, w: usize, out: &mut [u8])
        requires { Spreads w (state_of self.old out.old) }
        ensures spread { state_of self.new out.new ≡ spread_top w (state_of self.old out.old) }
        ensures same_buffer { SameBuffer self.old.pixels self.new.pixels }
    {
        let area = out.len();
        self.top -= 1;
        let pixel = self.pixels[self.top];
        let p = pixel as usize;
        let x = (pixel % (w as u32)) as usize;
        self.visit(p.checked_sub(w), out);
        self.visit((p + w < area).then_some(p + w), out);
        self.visit((0 < x).then(|| p - 1), out);
        self.visit((x < w - 1).then_some(p + 1), out);
    }

    // The pixels of the border list are visited.
    fn seed_border(&mut self, size: Size, out: &mut [u8])
        requires closed { Closed out.old size.h size.w }
        requires empty { self.old.top ≡ 0 }
        requires stack_len { size.h * size.w ≤ length self.old.pixels.now }
        ensures seeded { state_of self.new out.new ≡ seeded (border_list size.h size.w) (state_of self.old out.old) }
        ensures same_buffer { SameBuffer self.old.pixels self.new.pixels }
    {
        for k in 0..border_count(size) {
            self.visit(Some(border_pixel(size, k)), out);
        }
    }
}

// Every close pixel that the border reaches becomes ground.
fn reach(size: Size, stack: &mut [u32], out: &mut [u8])
    requires closed { Closed out.old size.h size.w }
    requires stack_len { size.h * size.w ≤ length stack.old }
    ensures { marked out.new ≡ ground_from out.old size.h size.w }
{
    let mut stack = Stack {
        pixels: stack,
        top: 0,
    };
    stack.seed_border(size, out);
    // A while: it ends when the stack is empty.
    while 0 < stack.top {
        stack.spread(size.w, out);
    }
}

// Ground becomes 1 and all else 0. A loop and no function over a closure: it would have no other caller here, and clauses of its own.
#[tactic(auto, unfolding(plane::specs::Plane::bit))]
fn settle(out: &mut [u8])
    ensures { out.new ≡ marked out.old }
{
    for b in out.iter_mut() {
        *b = u8::from(*b == GROUND);
    }
}

// The ground of a plane of close pixels, in place: 1 where the border reaches a close pixel, else 0.
pub fn flood(size: Size, stack: &mut [u32], out: &mut [u8])
    requires closed { Closed out.old size.h size.w }
    requires stack_len { size.h * size.w ≤ length stack.old }
    ensures { out.new ≡ ground_from out.old size.h size.w }
{
    reach(size, stack, out);
    settle(out)
}
