// What is read from a case. Nothing is declined here: every text has an answer, and where a word or a plane is not what it should be,
// what can be read of it counts, and 0 for the rest.
ghost use Rattle.std.specs.Prelude.{◌<◌, ◌≤◌, length, IfSome};

use crate::case::{Case, Request, Sides};
use crate::kind::Kind;
use colour::{Rgb, Settings};
use std::num;

// The colour of an entry that a palette has not.
pub(crate) const BLACK: Rgb = Rgb {
    r: 0.0,
    g: 0.0,
    b: 0.0,
};

// The colours and the alphas that the characters of a picture stand for, from `0` on.
#[derive(Clone, Copy)]
pub struct Palette<'a> {
    pub colours: &'a [Rgb],
    pub alphas: &'a [u8],
}

// How many bytes there are up to the first that is at most `last`, that one among them; all where there is none. A word ends with a
// byte that is at most a space, and a line with one that is at most a newline.
fn piece(text: &[u8], last: u8) -> usize
    ensures { result ≤ length text.now }
{
    match text.iter().position(|byte| *byte <= last) {
        Some(i) => i + 1,
        None => text.len(),
    }
}

// The first line, with its end.
pub(crate) fn line(text: &[u8]) -> &[u8] {
    &text[..piece(text, b'\n')]
}

// What follows the first line.
pub(crate) fn after_line(text: &[u8]) -> &[u8] {
    &text[piece(text, b'\n')..]
}

// What follows so many words.
fn after_words(text: &[u8], count: usize) -> &[u8] {
    let mut rest = text;
    for _ in 0..count {
        rest = &rest[piece(rest, b' ')..];
    }
    rest
}

// The bytes of a word that ends: the last one is not taken, also where no space or newline ends the word.
fn word(text: &[u8]) -> &[u8] {
    &text[..piece(text, b' ').saturating_sub(1)]
}

// The number that a text begins with, of at most 19 digits; 0 where there is none.
fn number(text: &[u8]) -> u64 {
    text::read_number(text, 0, 19)
}

// The number that is n below -1; n is taken modulo 2^63.
fn below(n: u64) -> i64 {
    -1 - (n % 0x8000_0000_0000_0000) as i64
}

// The number that a text begins with: n is taken modulo 2^63, and -n is n - 1 below -1, so that both ends of i64 can be read.
fn signed(text: &[u8]) -> i64 {
    if let [b'-', digits @ ..] = text {
        return match number(digits) {
            0 => 0,
            n => below(n - 1),
        };
    }
    (number(text) % 0x8000_0000_0000_0000) as i64
}

// Whether a text begins with 1.
fn flag(text: &[u8]) -> bool {
    text.first() == Some(&b'1')
}

// The value of a hexadecimal digit, 0 to 9 and a to f.
fn hex_digit(byte: u8) -> Option<u64>
    ensures { IfSome result (λ digit. digit < 16) }
{
    match byte {
        b'0'..=b'9' => Some(u64::from(byte - b'0')),
        b'a'..=b'f' => Some(u64::from(byte - b'a') + 10),
        _ => None,
    }
}

// The hexadecimal number that a text begins with, of at most 16 digits that count.
fn hex(text: &[u8]) -> u64 {
    let mut n = 0u64;
    for byte in text {
        let Some(digit) = hex_digit(*byte) else {
            break;
        };
        if 0xfff_ffff_ffff_ffff < n {
            break;
        }
        n = n * 16 + digit;
    }
    n
}

// The float whose bits a text begins with; 0 for the bits of a NaN.
fn float(text: &[u8]) -> f64 {
    let x = num::f64_from_bits_with_nan(hex(text));
    if x.is_nan() { 0.0 } else { x }
}

// The case that a text begins with, where a plane of its sides is neither empty nor too large.
pub(crate) fn case(text: &[u8]) -> Option<Case<'_>> {
    let kind = Kind::of(*text.first()?);
    let h = number(after_words(text, 1));
    let w = number(after_words(text, 2));
    let sides = Sides::new(h as usize, w as usize)?;
    Some(Case { text, kind, sides })
}

// The number after the sides: of steps for squares, of entries of the palette for a picture.
pub(crate) fn count(line: &[u8]) -> u64 {
    number(after_words(line, 3))
}

// The text of the card's colour: the word after those of the settings. A case has it whose first byte is `a` or one after it, as the
// small letters are.
fn card(case: Case<'_>) -> Option<&[u8]> {
    if *case.text.first()? < b'a' {
        return None;
    }
    let place = if case.kind == Kind::Ground { 5 } else { 9 };
    Some(word(after_words(case.text, place)))
}

// What the line of a case asks of a picture.
pub(crate) fn request(case: Case<'_>) -> Request<'_> {
    let line = case.text;
    let settings = Settings {
        alpha_threshold: signed(after_words(line, 5)),
        key_bg: flag(after_words(line, 6)),
        key_bg_fringe: signed(after_words(line, 7)),
        key_bg_tolerance: float(after_words(line, 4)),
        crop_to_alpha: flag(after_words(line, 8)),
    };
    let card = card(case);
    Request { settings, card }
}

// The colours of a palette and then its alphas, modulo 256; what follows.
pub(crate) fn entries<'a>(text: &'a [u8], colours: &mut [Rgb], alphas: &mut [u8]) -> &'a [u8] {
    let mut rest = text;
    for colour in colours.iter_mut() {
        *colour = Rgb {
            r: float(rest),
            g: float(after_words(rest, 1)),
            b: float(after_words(rest, 2)),
        };
        rest = after_words(rest, 3);
    }
    bytes(rest, alphas)
}

// Numbers, modulo 256; what follows.
fn bytes<'a>(text: &'a [u8], out: &mut [u8]) -> &'a [u8] {
    let mut rest = text;
    for byte in out.iter_mut() {
        *byte = (number(rest) % 256) as u8;
        rest = after_words(rest, 1);
    }
    rest
}

// The three channels of pixel i, where there is room for them.
fn set_colour(colours: &mut [f64], i: usize, colour: Rgb) {
    if i < colours.len() / 3 {
        colours[3 * i] = colour.r;
        colours[3 * i + 1] = colour.g;
        colours[3 * i + 2] = colour.b;
    }
}

// A plane of the palette's characters, as long as alpha; what follows the line of its last pixel. A character below `0` stands between
// pixels, and one past the palette is black with alpha 0. Pixels that the text ends before stay as they were.
pub(crate) fn plane<'a>(
    text: &'a [u8],
    palette: Palette<'_>,
    colours: &mut [f64],
    alpha: &mut [u8],
) -> &'a [u8] {
    let mut i = 0;
    for (at, byte) in text.iter().enumerate() {
        if alpha.len() <= i {
            return after_line(&text[at..]);
        }
        if let Some(entry) = byte.checked_sub(b'0') {
            let entry = usize::from(entry);
            set_colour(
                colours,
                i,
                palette.colours.get(entry).copied().unwrap_or(BLACK),
            );
            alpha[i] = palette.alphas.get(entry).copied().unwrap_or(0);
            i += 1;
        }
    }
    &[]
}
