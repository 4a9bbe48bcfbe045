// Replays mask.rs's answers of the cut, and of the pass that follows: stdin has the cases, stdout what mask.rs answered; the pass is its
// growth with one pass more. Of each kind the last cases have the card's colour, and were answered by mask.rs's label4, unmix_fringe
// and subject, put together with that colour for the median.
#![tactic(auto)]

use std::io;

fn main(rt: HostRuntime) -> io::Result<()> {
    replay::run(&rt)
}
