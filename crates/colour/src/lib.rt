// One colour or two: difference, closeness, the join test, the range of a colour, the settings' record.
#![tactic(auto)]

ghost use Rattle.std.specs.Prelude.{◌≡◌};
ghost use Rattle.std.specs.Float.Ieee.Scale.{finite};
ghost use Rattle.colour.specs.Number.{abs_of, larger, plus_zero, half_of};
ghost use Rattle.colour.specs.Colour.{difference_of, close_to, colour_ok, colours_ok};
ghost use Rattle.colour.specs.Settings.{at_least_zero, passes_of, on_of};
ghost use Rattle.colour.specs.Join.{joins_of};
ghost use Rattle.colour.specs.steps.Range.{InRange, Checked};

pub mod picture;
pub mod weights;

// The three channels of a colour.
#[repr(C)]
#[derive(Clone, Copy, Debug, PartialEq)]
pub struct Rgb {
    pub r: f64,
    pub g: f64,
    pub b: f64,
}

// The five settings of a cut.
#[repr(C)]
#[derive(Clone, Copy, Debug, PartialEq)]
pub struct Settings {
    pub alpha_threshold: i64,
    pub key_bg: bool,
    pub key_bg_fringe: i64,
    pub key_bg_tolerance: f64,
    pub crop_to_alpha: bool,
}

// The absolute value, by a comparison and a negation. Not f64::abs: -0 stays -0.
pub fn abs(x: f64) -> f64
    ensures { result ≡ abs_of x }
{
    if x < 0.0 { -x } else { x }
}

// y where x < y, else x. Not f64::max: where x is a NaN the answer is x.
fn larger_of(x: f64, y: f64) -> f64
    ensures { result ≡ larger x y }
{
    if x < y { y } else { x }
}

// The largest of the three absolute channel differences.
pub fn difference(a: Rgb, b: Rgb) -> f64
    ensures { result ≡ difference_of a b }
{
    let dr = abs(a.r - b.r);
    let dg = abs(a.g - b.g);
    let db = abs(a.b - b.b);
    larger_of(larger_of(dr, dg), db)
}

// Whether a pixel is close to the reference, by three tests and no branch.
pub fn close(tolerance: f64, reference: Rgb, p: Rgb) -> bool
    requires { InRange p reference }
    ensures { result ≡ close_to tolerance reference p }
{
    let dr = abs(p.r - reference.r);
    let dg = abs(p.g - reference.g);
    let db = abs(p.b - reference.b);
    (dr <= tolerance) & (dg <= tolerance) & (db <= tolerance)
}

// Whether an edge pixel joins the background: full > 1e-6 and 2 × mixed < full.
pub fn joins(full: f64, mixed: f64) -> bool
    ensures { result ≡ joins_of full mixed }
{
    (1e-6 < full) & (2.0 * mixed < full)
}

// Whether a number is from 0 to 1; -0 is, a NaN is not.
pub fn colour_ok(x: f64) -> bool
    ensures { result ≡ colour_ok x }
{
    (0.0 <= x) & (x <= 1.0)
}

// How many numbers `colours_ok` tests before it looks whether all of them passed.
const BLOCK: usize = 256;

// Whether every number of a block is from 0 to 1; all of them are read.
fn block_ok(colours: &[f64]) -> bool
    ensures { result ≡ colours_ok colours.now }
{
    colours.iter().fold(true, |ok, x| ok & colour_ok(*x))
}

// Whether every number is from 0 to 1. No block after the first that has another number is read.
pub fn colours_ok(colours: &[f64]) -> bool
    ensures { Checked colours.now result }
{
    for block in colours.chunks(BLOCK) {
        if !block_ok(block) {
            return false;
        }
    }
    true
}

// Whether x is neither an infinity nor a NaN.
pub fn is_finite(x: f64) -> bool
    ensures { result ≡ finite x }
{
    x.is_finite()
}

// A zero as +0, and any other number as it is. No method of f64 does that.
pub fn plus_zero(x: f64) -> f64
    ensures { result ≡ plus_zero x }
{
    if x == 0.0 { 0.0 } else { x }
}

// Half of the sum of two numbers. Not f64::midpoint: the sum is rounded, and then the half.
pub fn half(lo: f64, hi: f64) -> f64
    ensures { result ≡ half_of lo hi }
{
    (lo + hi) / 2.0
}

// A whole number as a count: a negative number counts as 0.
pub fn count_of(p: i64) -> u64
    ensures { result ≡ at_least_zero p }
{
    u64::try_from(p).unwrap_or(0)
}

// The passes of growth that the settings ask for.
pub fn passes(s: Settings) -> u64
    ensures { result ≡ passes_of s }
{
    count_of(s.key_bg_fringe)
}

// Whether a byte of alpha reaches the threshold.
pub fn reaches(alpha: u8, threshold: i64) -> bool
    ensures { result ≡ on_of alpha threshold }
{
    threshold <= i64::from(alpha)
}
