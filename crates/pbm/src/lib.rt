// What cutcard prints: the plain PBM file of a mask, or a refusal. Each function writes its piece to a page.
#![tactic(auto)]

ghost use Rattle.std.specs.Prelude.{◌≡◌, ◌+◌, ◌*◌, ◌<◌, ◌≤◌, length};
ghost use Rattle.text.specs.steps.Writing.{HasRoom, Wrote, Writes};
ghost use Rattle.pbm.specs.Text.{bit_byte, ends_line, pixel_text, pixels_text, pair_text, keyed_end};
ghost use Rattle.pbm.specs.Text.{crop_lines, size_line, mask_text, refusal_text};

use plane::Box;
use text::Page;

// The most digits in a line.
const LINE: usize = 70;

// Two numbers with a space between them.
fn pair(page: &mut Page<'_>, a: usize, b: usize)
    requires { HasRoom page.old (length (pair_text a b)) }
    ensures { Writes (pair_text a b) page.old page.new }
{
    page.number(a as u64);
    page.put(b' ');
    page.number(b as u64);
}

// The digit of a bit: '1' for on, '0' for off.
fn bit_byte(t: bool) -> u8
    ensures { result ≡ bit_byte t }
{
    if t { b'1' } else { b'0' }
}

// Whether a line ends after column x of a row of w pixels.
fn ends_line(w: usize, x: usize) -> bool
    requires { x < w }
    ensures { result ≡ ends_line w x }
{
    ((x + 1) % LINE == 0) | (x + 1 == w)
}

// Pixel i of a mask with w columns, with the newline where a line ends.
fn pixel(page: &mut Page<'_>, mask: &[u8], w: usize, i: usize)
    requires { (0 < w) × (i < length mask.now) × HasRoom page.old 2 }
    ensures { Writes (pixel_text mask.now w i) page.old page.new }
{
    page.put(bit_byte(mask[i] != 0));
    if ends_line(w, i % w) {
        page.put(b'\n');
    }
}

// All pixels of a mask, by their index, which also says where a line ends. That a row is not empty stands in three clauses: a type of such
// widths would hold nothing else.
fn pixels(page: &mut Page<'_>, mask: &[u8], w: usize)
    requires { (0 < w) × HasRoom page.old (2 * length mask.now) }
    ensures { Writes (pixels_text mask.now w (length mask.now)) page.old page.new }
{
    for i in 0..mask.len() {
        pixel(page, mask, w, i);
    }
}

// The end of the second line: the keyed flag.
fn keyed_end(page: &mut Page<'_>, keyed: bool)
    requires { HasRoom page.old 9 }
    ensures { Writes (keyed_end keyed) page.old page.new }
{
    page.copy(b" keyed ");
    page.put(bit_byte(keyed));
    page.put(b'\n');
}

// The first two lines: P1, and the comment with the crop box and the keyed flag.
fn crop_lines(page: &mut Page<'_>, crop: Box, keyed: bool)
    requires { HasRoom page.old (length (crop_lines crop keyed)) }
    ensures { Writes (crop_lines crop keyed) page.old page.new }
{
    page.copy(b"P1\n# crop ");
    pair(page, crop.y0, crop.y1);
    page.put(b' ');
    pair(page, crop.x0, crop.x1);
    keyed_end(page, keyed);
}

// Width and height, flat as `write_mask` takes them.
fn size_line(page: &mut Page<'_>, h: usize, w: usize)
    requires { HasRoom page.old (length (size_line h w)) }
    ensures { Writes (size_line h w) page.old page.new }
{
    pair(page, w, h);
    page.put(b'\n');
}

// A mask with its crop box and keyed flag, from the front of the buffer, which has room for two bytes a pixel. The mask and its sides
// are no `Mask`: that asks for sides up to the longest that the proofs take, and this only for a width. The box
// and the flag are no `Outcome`, which is of a crate that this one does not see.
pub fn write_mask(out: &mut [u8], mask: &[u8], h: usize, w: usize, crop: Box, keyed: bool) -> usize
    requires mask_len { (0 < w) × (length mask.now ≡ h * w) }
    requires out_len { length (crop_lines crop keyed) + length (size_line h w) + 2 * (h * w) ≤ length out.old }
    ensures { Wrote (mask_text mask.now h w crop keyed) out.old out.new 0 result }
{
    let mut page = Page { out, at: 0 };
    crop_lines(&mut page, crop, keyed);
    size_line(&mut page, h, w);
    pixels(&mut page, mask, w);
    page.at
}

// A refusal by its number, from the front of the buffer. Any number has a text, so it takes no Refusal.
pub fn write_refusal(out: &mut [u8], n: u32) -> usize
    requires { length (refusal_text n) ≤ length out.old }
    ensures { Wrote (refusal_text n) out.old out.new 0 result }
{
    let mut page = Page { out, at: 0 };
    page.copy(b"refused ");
    page.number(u64::from(n));
    page.put(b'\n');
    page.at
}
