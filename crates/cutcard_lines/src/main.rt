// cutcard on a file of another stand: comments and empty lines in the header, and its fields in another order. stdout has the cut
// of mask.rs.
#![tactic(auto)]

fn main(rt: HostRuntime) {
    cutfile::run(&rt);
}
