// What can still be read of a torn file of fields: standard input, of any length, and the fields that are
// kept.
#![tactic(auto)]

use windows::Wanted;

fn main(rt: HostRuntime) {
    windows::salvage_input(&rt, Wanted::Fields);
}
