// The work of cutcard: from the bytes of a PAM file to the bytes of a plain PBM file or of a refusal.
#![tactic(auto)]

ghost use Rattle.std.specs.Prelude.{◌≡◌, ◌≤◌, length};
ghost use Rattle.text.specs.steps.Writing.{Wrote};
ghost use Rattle.pam_header.specs.Header.{header_of};
ghost use Rattle.pam.specs.Picture.{colours_of, alpha_of};
ghost use Rattle.pam.specs.steps.File.{file_refusal};
ghost use Rattle.cutfile.specs.Cutcard.{most_text, CardCalled};
ghost use Rattle.cutfile.specs.steps.Text.{picture_text};

use pam::{MOST_INPUT, MOST_PIXELS};
use pam_header::Header;
use std::io::Input;

// How many colours the largest picture has, and how many numbers a work buffer for it holds at least. The buffers are arrays that
// are long enough for every picture, because there is no heap.
const MOST_COLOURS: usize = 6912;

const WORK: usize = 9234;

// No text is longer than this.
pub const MOST_TEXT: usize = 4656;

// The text of a file that is not declined for its header or its length: its picture is read, cut and written.
fn write_picture(header: Header, input: &[u8], out: &mut [u8]) -> usize
    requires header_is { Some header ≡ header_of input.now }
    requires passed { file_refusal (Some header) input.now ≡ 0 }
    requires out_len { most_text ≤ length out.old }
    ensures { Wrote
        (picture_text (colours_of header input.now) (alpha_of header input.now) header.height header.width)
        out.old out.new 0 result }
{
    let h = header.height;
    let w = header.width;
    let n = h * w;
    let mut colours = [0.0f64; MOST_COLOURS];
    let mut alpha = [0u8; MOST_PIXELS];
    let mut mask = [0u8; MOST_PIXELS];
    let mut weights = [0.0f64; MOST_PIXELS];
    let colours = &mut colours[..3 * n];
    let alpha = &mut alpha[..n];
    let mask = &mut mask[..n];
    let weights = &mut weights[..n];
    pam::colours(input, header.body, n, colours);
    pam::alpha(input, header.body, n, alpha);
    let answer = keying::subject(
        colours,
        alpha,
        h,
        w,
        None,
        pam::settings_of(),
        &mut [0u32; WORK],
        &mut [0u8; WORK],
        &mut [0u8; WORK],
        &mut [0u8; WORK],
        mask,
        weights,
    );
    match answer {
        Ok(cut) => pbm::write_mask(out, mask, h, w, cut.crop, cut.keyed),
        Err(refusal) => pbm::write_refusal(out, refusal.into()),
    }
}

// The text for an input is written to the front of out; its length. Where out has fewer than MOST_TEXT bytes nothing is
// written, and the answer is 0. It is a length and no Option because the definition of a call of cutcard (R63) says so; no text
// is empty, so 0 stands for none alone.
pub fn cutcard(input: &[u8], out: &mut [u8]) -> usize
    ensures { CardCalled input.now out.old result out.new }
{
    if out.len() < MOST_TEXT {
        return 0;
    }
    match pam::read(input) {
        Ok(header) => write_picture(header, input, out),
        Err(refusal) => pbm::write_refusal(out, refusal.into()),
    }
}

// From standard input, until it ends or MOST_INPUT bytes are read, to standard output: what the programs run. No byte after
// these matters (`first-bytes` in proofs/Laws.antt). A read that fails counts as the end. A text that standard output does not
// take whole is said on standard error. It has no result, and so no contract.
pub fn run<R: Input + Print + Eprint>(rt: &R) {
    let mut input = [0u8; MOST_INPUT];
    let mut out = [0u8; MOST_TEXT];
    let n = text::read_full(&mut rt.reader(), &mut input);
    let r = cutcard(&input[..n], &mut out);
    if rt.write_all(&out[..r]).is_err() {
        let _ = eprintln!(rt;
            "cutcard: the answer could not be written in full; remove what was written, see to the disk or the pipe, and run it again"
        );
    }
}
