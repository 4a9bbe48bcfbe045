// The outline: the definitions of ground, growth and cut (specs/) and the laws about them (proofs/). Its only code is the type of
// the cut's answer.
#![tactic(auto)]

// What an accepted cut answers beside its mask and weights: whether it was keyed, and the crop box.
#[derive(Clone, Copy, Debug, PartialEq, Eq)]
pub struct Outcome {
    pub keyed: bool,
    pub crop: plane::Box,
}
