// How answers are written.
ghost use Rattle.std.specs.Prelude.{◌≡◌, ◌*◌, length};

use crate::case::{Mask, Sides};
use outline::Outcome;
use plane::answer::Refusal;
use std::{fmt, io, num};

// The label of each pixel.
#[derive(Clone, Copy)]
pub struct Labels<'a> {
    pub labels: &'a [u32],
    pub sides: Sides,
    ghost whole: { length labels.now ≡ sides.h * sides.w },
}

// The row and the column of each pixel's nearest on-pixel; the row is -1 where no pixel is on, a number as the call writes it and as it
// is printed.
#[derive(Clone, Copy)]
pub struct Places<'a> {
    pub rows: &'a [i32],
    pub columns: &'a [i32],
    pub sides: Sides,
    ghost rows_whole: { length rows.now ≡ sides.h * sides.w },
    ghost columns_whole: { length columns.now ≡ sides.h * sides.w },
}

// A line for each run of numbers with the same bits: how many they are, and the bits.
#[derive(Clone, Copy)]
struct Runs<'a>(&'a [f64]);

// What stands after pixel i: the line end after the last one of a row, and else what stands between two.
fn after_pixel(sides: Sides, i: usize, between: &'static str) -> &'static str {
    if i % sides.w == sides.w - 1 {
        "\n"
    } else {
        between
    }
}

// Lines of digits: 1 for on and 0 for off.
impl fmt::Display for Mask<'_> {
    fn fmt<W: fmt::Write>(&self, f: &mut fmt::Formatter<W>) -> fmt::Result {
        for (i, pixel) in self.pixels.iter().enumerate() {
            f.write_str(if *pixel == 0 { "0" } else { "1" })?;
            f.write_str(after_pixel(self.sides, i, ""))?;
        }
        Ok(())
    }
}

impl fmt::Display for Labels<'_> {
    fn fmt<W: fmt::Write>(&self, f: &mut fmt::Formatter<W>) -> fmt::Result {
        for (i, label) in self.labels.iter().enumerate() {
            let after = after_pixel(self.sides, i, " ");
            write!(f, "{label}{after}")?;
        }
        Ok(())
    }
}

impl fmt::Display for Places<'_> {
    fn fmt<W: fmt::Write>(&self, f: &mut fmt::Formatter<W>) -> fmt::Result {
        for (i, (row, column)) in self.rows.iter().zip(self.columns).enumerate() {
            let after = after_pixel(self.sides, i, " ");
            write!(f, "{row},{column}{after}")?;
        }
        Ok(())
    }
}

impl fmt::Display for Runs<'_> {
    fn fmt<W: fmt::Write>(&self, f: &mut fmt::Formatter<W>) -> fmt::Result {
        for run in self.0.chunk_by(|a, b| bits(*a) == bits(*b)) {
            if let Some(first) = run.first() {
                let count = run.len();
                let bits = bits(*first);
                writeln!(f, "{count} {bits:016x}")?;
            }
        }
        Ok(())
    }
}

// The bits of a number; 0 for a NaN.
fn bits(x: f64) -> u64 {
    if x.is_nan() {
        0
    } else {
        num::f64_to_bits_with_nan(x)
    }
}

// Why a call declines.
pub(crate) fn refused<R: Print>(rt: &R, refusal: Refusal) -> io::Result<()> {
    let number = u32::from(refusal);
    print!(rt; "refused {number}\n")
}

// The lines of a cut, or why it declines.
pub(crate) fn cut<R: Print>(
    rt: &R,
    cut: Result<Outcome, Refusal>,
    mask: Mask<'_>,
    weights: &[f64],
) -> io::Result<()> {
    match cut {
        Ok(Outcome { keyed, crop }) => {
            let keyed = u8::from(keyed);
            let plane::Box { y0, y1, x0, x1 } = crop;
            let runs = Runs(weights);
            print!(rt; "keyed {keyed} crop {y0} {y1} {x0} {x1}\n{mask}{runs}")
        }
        Err(refusal) => refused(rt, refusal),
    }
}

// A truth as it is written.
fn yes_or_no(holds: bool) -> &'static str {
    if holds { "yes" } else { "no" }
}

// Whether something holds, after a text.
pub(crate) fn whether<R: Print>(rt: &R, what: &str, holds: bool) -> io::Result<()> {
    let answer = yes_or_no(holds);
    print!(rt; "{what}: {answer}\n")
}

// Where two pictures agree, or that there is no ground.
pub(crate) fn agreement<R: Print>(rt: &R, agreement: Option<(bool, bool)>) -> io::Result<()> {
    let Some((three, four)) = agreement else {
        return print!(rt; "absent\n");
    };
    whether(rt, "agree within p + 3", three)?;
    whether(rt, "agree within p + 4", four)
}
