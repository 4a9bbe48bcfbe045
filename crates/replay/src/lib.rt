// Replays recorded cases: reads them from standard input, computes each with the public calls, and writes the answers. What is
// proved is that it ends, stays within its arrays, and that masks, pictures, labels and places are as long as their sides say; what it
// writes is compared with recorded answers. `run` is its only public function.
//
// A case is a line of words and then text. Of geometry the line is `op h w k`, with op L for labels, S for squares or N for
// nearest, and h lines of w digits follow, 0 for off. Its answer is the same line and then, for L, the number of parts and h
// lines of w labels; for S, h lines of w digits; for N, h lines of w pairs `row,column`.
//
// Of keying the line is `G h w k tolerance` for ground, and `C h w k tolerance threshold key p crop` for a cut, `P ..` for two
// cuts with the same settings or `F ..` for the pass that follows: ground, growth with p passes, and a look at the pass after them;
// key and crop are 1 or 0, tolerance is 16 hexadecimal digits, the bits of the number, and those of a NaN stand for 0. A palette
// follows, k lines, each the bits of three channels, and a line of k alphas; and one plane or two, of h lines of w characters:
// `0` is the palette's first entry, and each entry has the character after the one before. The answer is the same line, and then
// for G `found` and h lines of w digits, or `absent`; for C `keyed` and `crop` with their numbers, the mask as h lines of w
// digits, and the weights in order, as lines of a count and the bits that so many weights have; for P two lines that say whether
// the pictures agree on the border and within p + 3, p + 4 of the first one's ground, with p modulo 4096, or `absent` where it has
// none, the answers of both cuts, both with the alpha of the second picture, and a line that says whether the masks are the same; for
// F `joins` with their number and the background after that pass as h lines of w digits, or `absent`. A refusal is `refused` and its
// number.
//
// g, c, p and f are G, C, P and F with the card's colour: the line has the text of it as one more word, its last, which may be empty.
//
// Every input has an answer. The first byte of a line is its kind, and any byte that is none of these letters is a cut, from `a` on with
// the card's colour. Words are counted on past the end of a line; a word that is missing or no number counts as 0, and so do pixels that
// the input ends before, but that in a second picture they keep the alpha of the first. A plane that is empty or has more than
// MOST_PIXELS pixels, and a palette of more than MOST_COLOURS entries, end the run, and no byte after MOST_INPUT is read. There is no
// heap: arrays are as long as the largest plane asks for.
#![tactic(auto)]

mod answering;
mod calls;
mod case;
mod kind;
mod reading;
mod writing;

use case::{Case, MOST_PIXELS, Mask, Picture};
use kind::Kind;
use reading::Palette;
use std::io;
use std::io::Input;

const MOST_INPUT: usize = 262144;

// The most entries of a palette.
const MOST_COLOURS: usize = 80;

// A digit of a mask is its own value.
const DIGITS: [u8; 10] = [0, 1, 2, 3, 4, 5, 6, 7, 8, 9];

// A case of geometry: its mask is read, its line written, and the answer; what follows it.
fn mask_case<'a, R: Print>(rt: &R, case: Case<'a>) -> io::Result<&'a [u8]> {
    let Case { text, kind, sides } = case;
    let mut pixels = [0u8; MOST_PIXELS];
    let pixels = &mut pixels[..sides.area()];
    let digits = Palette {
        colours: &[],
        alphas: &DIGITS,
    };
    let rest = reading::plane(reading::after_line(text), digits, &mut [], pixels);
    rt.write_all(reading::line(text))?;
    answering::of_mask(rt, kind, Mask { pixels, sides }, reading::count(text))?;
    Ok(rest)
}

// The picture of a case, which begins in `text`, or both of them are read, and the answer written; what follows.
fn pictures<'a, R: Print>(
    rt: &R,
    case: Case<'_>,
    text: &'a [u8],
    palette: Palette<'_>,
) -> io::Result<&'a [u8]> {
    let Case { kind, sides, .. } = case;
    let n = sides.area();
    let request = reading::request(case);
    let mut colours = [0.0f64; 3 * MOST_PIXELS];
    let mut alpha = [0u8; MOST_PIXELS];
    let rest = reading::plane(text, palette, &mut colours[..3 * n], &mut alpha[..n]);
    let colours = &colours[..3 * n];
    if kind != Kind::Pair {
        let alpha = &alpha[..n];
        answering::of_picture(
            rt,
            kind,
            Picture {
                colours,
                alpha,
                sides,
            },
            request,
        )?;
        return Ok(rest);
    }
    // The alpha of both pictures is the second one's.
    let mut others = [0.0f64; 3 * MOST_PIXELS];
    let rest = reading::plane(rest, palette, &mut others[..3 * n], &mut alpha[..n]);
    let others = &others[..3 * n];
    let alpha = &alpha[..n];
    let first = Picture {
        colours,
        alpha,
        sides,
    };
    let second = Picture {
        colours: others,
        alpha,
        sides,
    };
    answering::of_pair(rt, first, second, request)?;
    Ok(rest)
}

// A case of keying: its palette is read, its line written, and the answer; what follows it. A palette that is too large ends the run.
fn picture_case<'a, R: Print>(rt: &R, case: Case<'a>) -> io::Result<&'a [u8]> {
    let count = reading::count(case.text) as usize;
    if MOST_COLOURS < count {
        return Ok(&[]);
    }
    let mut colours = [reading::BLACK; MOST_COLOURS];
    let mut alphas = [0u8; MOST_COLOURS];
    let colours = &mut colours[..count];
    let alphas = &mut alphas[..count];
    let rest = reading::entries(reading::after_line(case.text), colours, alphas);
    rt.write_all(reading::line(case.text))?;
    pictures(rt, case, rest, Palette { colours, alphas })
}

// The case that a text begins with; what follows it. A plane that is empty or too large ends the run.
fn first_case<'a, R: Print>(rt: &R, text: &'a [u8]) -> io::Result<&'a [u8]> {
    let Some(case) = reading::case(text) else {
        return Ok(&[]);
    };
    match case.kind {
        Kind::Labels | Kind::Squares | Kind::Nearest => mask_case(rt, case),
        Kind::Ground | Kind::Cut | Kind::Pair | Kind::Following => picture_case(rt, case),
    }
}

// Every case of a text. Each is at least a byte long, so the number of bytes ends the loop.
fn cases<R: Print>(rt: &R, text: &[u8]) -> io::Result<()> {
    let mut rest = text;
    for _ in 0..text.len() {
        if rest.is_empty() {
            break;
        }
        rest = first_case(rt, rest)?;
    }
    Ok(())
}

// All of standard input, up to MOST_INPUT bytes. A read that fails counts as the end; a write that fails ends the run.
pub fn run<R: Input + Print>(rt: &R) -> io::Result<()> {
    let mut input = [0u8; MOST_INPUT];
    let n = text::read_full(&mut rt.reader(), &mut input);
    cases(rt, &input[..n])
}
