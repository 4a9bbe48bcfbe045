// Replays mask.rs's answers of labels, squares and nearest: stdin has the cases, stdout what mask.rs answered.
#![tactic(auto)]

use std::io;

fn main(rt: HostRuntime) -> io::Result<()> {
    replay::run(&rt)
}
