// Alpha and weights: which alpha reaches the threshold, the mask of those that do, and the weight of each pixel.
#![tactic(auto)]

ghost use Rattle.std.specs.Prelude.{◌≡◌, ℕ, length, get_or};
ghost use Rattle.plane.specs.Plane.{table};
ghost use Rattle.plane.specs.Search.{some_below};
ghost use Rattle.plane.specs.Mask.{mask_of};
ghost use Rattle.colour.specs.Settings.{on_of};
ghost use Rattle.outline.specs.Cut.{weights_of};
ghost use Rattle.weights.specs.steps.Weight.{on_weight, weight_for};

use std::array;

// Whether some alpha reaches the threshold.
pub fn some_reach(alpha: &[u8], threshold: i64) -> bool
    ensures { result ≡ some_below (length alpha.now) (λ (i : ℕ). on_of (get_or alpha.now i 0) threshold) }
{
    alpha
        .iter()
        .fold(false, |found, a| found | colour::reaches(*a, threshold))
}

// The mask of the alpha that reaches the threshold. The loops of this file write by an index: after `iter_mut().zip(..)` or
// `enumerate()` it is not known what was written.
pub fn reach(alpha: &[u8], threshold: i64, mask: &mut [u8])
    requires { length mask.old ≡ length alpha.now }
    ensures { mask.new ≡ mask_of (length alpha.now)
        (λ (i : ℕ). on_of (get_or alpha.now i 0) threshold) }
{
    for i in 0..mask.len() {
        mask[i] = u8::from(colour::reaches(alpha[i], threshold));
    }
}

// The weight of an on-pixel by its alpha, which counts as 1 where it is 0.
fn on_weight(alpha: u8) -> f64
    ensures { result ≡ on_weight alpha }
{
    colour::weights::weight(alpha.max(1))
}

// The weights of all on-pixels, by alpha.
fn on_weights() -> [f64; 256]
    ensures { result ≡ table on_weight 0 256 }
{
    array::from_fn(|v| on_weight(v as u8))
}

// The weight of a pixel.
fn weigh(entries: &[f64; 256], m: u8, alpha: u8) -> f64
    requires { entries.now ≡ table on_weight 0 256 }
    ensures { result ≡ weight_for m alpha }
{
    if m == 0 {
        0.0
    } else {
        entries[usize::from(alpha)]
    }
}

// The weights of the plane, from the table.
fn weigh_all(entries: &[f64; 256], mask: &[u8], alpha: &[u8], out: &mut [f64])
    requires mask_len { (length mask.now ≡ length out.old) × (length alpha.now ≡ length out.old) }
    requires entries_value { entries.now ≡ table on_weight 0 256 }
    ensures { out.new ≡ weights_of mask.now alpha.now (length out.old) }
{
    for i in 0..out.len() {
        out[i] = weigh(entries, mask[i], alpha[i]);
    }
}

// The weights of the plane.
pub fn weights(mask: &[u8], alpha: &[u8], out: &mut [f64])
    requires { (length mask.now ≡ length out.old) × (length alpha.now ≡ length out.old) }
    ensures { out.new ≡ weights_of mask.now alpha.now (length out.old) }
{
    weigh_all(&on_weights(), mask, alpha, out);
}
