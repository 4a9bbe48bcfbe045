// What cutcard is given: a picture in a PAM file, of at most 2304 pixels, and its settings.
#![tactic(auto)]

ghost use Rattle.std.specs.Prelude.{◌≡◌, true, ◌*◌, ◌≤◌, length, IfOk};
ghost use Rattle.plane.specs.Refusal.{refusal_of_answer};
ghost use Rattle.colour.specs.Colour.{colours_ok};
ghost use Rattle.pam.specs.Settings.{settings};
ghost use Rattle.pam_header.specs.Header.{most_header, header_of};
ghost use Rattle.pam.specs.Picture.{most_pixels, most_input, colours_from, alpha_from};
ghost use Rattle.pam.specs.steps.File.{file_refusal};

use colour::Settings;
use pam_header::Header;
use plane::answer::Refusal;

// The most pixels of a picture.
pub const MOST_PIXELS: usize = 2304;

// No accepted file is as long, so no byte after these matters (`long-declined` in proofs/Files.antt).
pub const MOST_INPUT: usize = 13313;

// MOST_INPUT is the number of the definitions.
pub fn most_input() -> usize
    ensures { result ≡ most_input }
{
    MOST_INPUT
}

// The header of a file, or why the file is declined: it has no header, too many pixels, or not the length that its header says.
pub fn read(input: &[u8]) -> Result<Header, Refusal>
    ensures number { refusal_of_answer result ≡ file_refusal (header_of input.now) input.now }
    ensures header { IfOk result (λ h. Some h ≡ header_of input.now) }
{
    let header = pam_header::read_header(input).ok_or(Refusal::Header)?;
    let n = header.height * header.width;
    if MOST_PIXELS < n {
        return Err(Refusal::Pixels);
    }
    let end = header.body + 4 * n;
    if input.len() != end {
        return Err(Refusal::FileLength);
    }
    Ok(header)
}

// The colours of n pixels that stand from a place on. By the place and not as the slice behind it: where a file is too short, 0 is
// read, as the definitions do. This loop and the next write by an index: after `iter_mut().enumerate()` it is
// not known what was written.
pub fn colours(input: &[u8], body: usize, n: usize, out: &mut [f64])
    requires { (body ≤ most_header) × (n ≤ most_pixels) × (length out.old ≡ 3 * n) }
    ensures out_after { out.new ≡ colours_from input.now body n }
    ensures out_in_range { colours_ok out.new ≡ true }
{
    for k in 0..out.len() {
        let v = text::byte_at(input, body + (4 * (k / 3) + k % 3));
        out[k] = colour::weights::weight(v);
    }
}

// Their alpha. It differs from the colours in what it reads and in the type that it writes.
pub fn alpha(input: &[u8], body: usize, n: usize, out: &mut [u8])
    requires { (body ≤ most_header) × (n ≤ most_pixels) × (length out.old ≡ n) }
    ensures { out.new ≡ alpha_from input.now body n }
{
    for i in 0..out.len() {
        out[i] = text::byte_at(input, body + (4 * i + 3));
    }
}

// The settings of cutcard.
pub fn settings_of() -> Settings
    ensures { result ≡ settings }
{
    Settings {
        alpha_threshold: 128,
        key_bg: true,
        key_bg_fringe: 1,
        key_bg_tolerance: 0.03125,
        crop_to_alpha: true,
    }
}
