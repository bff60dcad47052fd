// The line symbols of a sky: its words from standard input, 15,000 bytes of value 0 or 1 to standard
// output.
#![tactic(auto)]

fn main(rt: HostRuntime) {
    requests::write_sky(&rt);
}
