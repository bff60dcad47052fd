// What cannot be read of a torn file of fields: standard input, of any length, and a line for each stretch
// that is skipped, its first byte and its count.
#![tactic(auto)]

use windows::Wanted;

fn main(rt: HostRuntime) {
    windows::salvage_input(&rt, Wanted::Stretches);
}
