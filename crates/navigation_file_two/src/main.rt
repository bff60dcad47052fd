// The navigation file program for card two.
#![tactic(auto)]

fn main(rt: HostRuntime) {
    navfile::write_file(&rt, 2);
}
