// Replays SciPy's answers of labels, squares and nearest: stdin has the cases, stdout what SciPy answered.
#![tactic(auto)]

use std::io;

fn main(rt: HostRuntime) -> io::Result<()> {
    replay::run(&rt)
}
