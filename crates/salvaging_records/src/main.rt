// The offers that can still be read of a torn file of fields: standard input, of any length, and the
// sixteen bytes of each offer that is kept, as the listing reads them.
#![tactic(auto)]

use windows::Wanted;

fn main(rt: HostRuntime) {
    windows::salvage_input(&rt, Wanted::Records);
}
