// cutcard: a PAM file from standard input, the plain PBM file of its cut to standard output. stdin is the example of R43.
#![tactic(auto)]

fn main(rt: HostRuntime) {
    cutfile::run(&rt);
}
