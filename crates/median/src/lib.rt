// The reference of one channel: the median of its border values, which are kept in a lent buffer of 32-bit numbers.
#![tactic(auto)]

ghost use Rattle.std.specs.Prelude.{◌≡◌, true, ◌+◌, ◌<◌, length, set};
ghost use Rattle.colour.specs.Number.{plus_zero};
ghost use Rattle.colour.specs.Colour.{colours_ok};
ghost use Rattle.median.specs.Median.{placed, median_of};
ghost use Rattle.median.specs.steps.Values.{float_at, floats_of, Slot};
ghost use Rattle.median.specs.steps.Select.{at_most, nearer, least_above, Channel};

// How many patterns 32 bits have.
const HALF: u64 = 4294967296;

// The bit pattern of 1.0: those of the numbers from 0 to 1 are at most this, and have the numbers' order.
const ONE: u64 = 0x3ff0_0000_0000_0000;

// x where it lies above t and below r, else r.
#[tactic(auto, unfolding(crate::specs::steps::Select::nearer))]
fn nearer_of(t: f64, x: f64, r: f64) -> f64
    ensures { result ≡ nearer t x r }
{
    if (t < x) & (x < r) { x } else { r }
}

// A buffer of values from 0 to 1. The C interface lends numbers of 32 bits, so the two halves of a value stand side by side.
#[derive(Clone, Copy)]
struct Buffer<'a> {
    halves: &'a [u32],
    ghost in_range: { colours_ok (floats_of halves.now) ≡ true },
}

impl Buffer<'_> {
    // How many there are.
    #[tactic(auto, using(crate::proofs::Values::buffer_length))]
    fn count(self) -> usize
        ensures { result ≡ length (floats_of self.entry.halves.now) }
    {
        self.halves.len() / 2
    }

    // Value k.
    #[tactic(auto, using(crate::proofs::Values::buffer_length))]
    fn value(self, k: usize) -> f64
        requires { k < length (floats_of self.halves.now) }
        ensures { result ≡ float_at self.entry.halves.now k }
    {
        let low = u64::from(self.halves[2 * k]);
        let high = u64::from(self.halves[2 * k + 1]);
        f64::from_bits(high * HALF + low)
    }

    // How many are at or below t. A for, since `filter` and `count` are not compiled to many values at once; by place, here and in
    // `least_above`, since a value is two numbers.
    fn at_most(self, t: f64) -> usize
        ensures { result ≡ at_most t (floats_of self.entry.halves.now) }
    {
        let mut n = 0usize;
        for i in 0..self.count() {
            n += usize::from(self.value(i) <= t);
        }
        n
    }

    // The value at place k of the values in order, a zero as +0: the least bit pattern at or below which more than k
    // values are.
    fn select(self, k: usize) -> f64
        requires { k < length (floats_of self.halves.now) }
        ensures { result ≡ plus_zero (placed (floats_of self.entry.halves.now) k) }
    {
        // A while: it halves what lies from lo to hi.
        let mut lo = 0u64;
        let mut hi = ONE;
        while lo < hi {
            let mid = lo + (hi - lo) / 2;
            if k < self.at_most(f64::from_bits(mid)) {
                hi = mid;
            } else {
                lo = mid + 1;
            }
        }
        f64::from_bits(lo)
    }

    // The least value above t; 1.0 where no value lies between.
    fn least_above(self, t: f64) -> f64
        ensures { result ≡ least_above t (floats_of self.entry.halves.now) }
    {
        let mut least = 1.0;
        for i in (0..self.count()).rev() {
            least = nearer_of(t, self.value(i), least);
        }
        least
    }

    // The value at place k + 1, a zero as +0, from the value lo at place k: lo again where more than k + 1 values are at
    // or below it, else the least above it.
    #[tactic(auto, using(crate::proofs::Values::buffer_length))]
    fn next_place(self, k: usize, lo: f64) -> f64
        requires inside { k + 1 < length (floats_of self.halves.now) }
        requires first { lo ≡ plus_zero (placed (floats_of self.halves.now) k) }
        ensures { result ≡ plus_zero (placed (floats_of self.entry.halves.now) (k + 1)) }
    {
        if k + 1 < self.at_most(lo) {
            lo
        } else {
            colour::plus_zero(self.least_above(lo))
        }
    }
}

// Value k becomes x.
#[tactic(auto, using(crate::proofs::Values::buffer_length))]
pub fn put(values: &mut [u32], k: usize, x: f64)
    requires { Slot (floats_of values.old) k x }
    ensures { floats_of values.new ≡ set (floats_of values.old) k x }
{
    let bits = x.to_bits();
    values[2 * k] = (bits % HALF) as u32;
    values[2 * k + 1] = (bits / HALF) as u32;
}

// Half of the sum of the two middle values, a zero as +0.
pub fn median(values: &[u32]) -> f64
    requires { Channel (floats_of values.now) }
    ensures { result ≡ median_of (floats_of values.now) }
{
    let values = Buffer { halves: values };
    let k = values.count() / 2 - 1;
    let lo = values.select(k);
    let hi = values.next_place(k, lo);
    colour::plus_zero(colour::half(lo, hi))
}
