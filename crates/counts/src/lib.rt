// Running counts: what the passes of the dilation by squares share. A window of k pixels each way slides along a line, and the number of
// on-pixels in it is a running value: at each step the pixel that enters is added and the one that leaves is taken off.
#![tactic(auto)]

ghost use Rattle.std.specs.Prelude.{◌≡◌, length};
ghost use Rattle.counts.specs.steps.Parts.{step_by, moved_line};

// What a pixel does that is on: it enters a window, or it leaves.
#[derive(Clone, Copy, Debug, PartialEq, Eq)]
pub enum Change {
    Enters,
    Leaves,
}

impl Change {
    // By how much a count changes, modulo 256: by 1, or by 255, which is one less.
    pub fn step(self) -> u8
        ensures { result ≡ step_by self }
    {
        match self {
            Change::Enters => 1,
            Change::Leaves => 255,
        }
    }
}

// Each of a line of counts, modulo 256, changed by a step where the pixel beside it is on. It takes any step, and no `Change`, which
// would ask more of its callers. The loop goes by index: after a `zip` of `iter_mut` no proof knows what was written.
pub fn move_line(line: &[u8], change: u8, counts: &mut [u8])
    requires { length line.now ≡ length counts.old }
    ensures { counts.new ≡ moved_line line.now change counts.old }
{
    for x in 0..line.len() {
        let moved = if line[x] != 0 { change } else { 0 };
        counts[x] = counts[x].wrapping_add(moved);
    }
}
