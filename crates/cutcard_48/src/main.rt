// cutcard on a picture of 48 by 48, the most pixels that it takes: a badge with a soft rim on a white card. stdout has the cut of
// mask.rs.
#![tactic(auto)]

fn main(rt: HostRuntime) {
    cutfile::run(&rt);
}
