// Replays mask.rs's answers of ground: stdin has the cases, stdout what mask.rs answered. The last cases have the card's colour,
// and were answered by mask.rs's label4 with that colour for the median.
#![tactic(auto)]

use std::io;

fn main(rt: HostRuntime) -> io::Result<()> {
    replay::run(&rt)
}
