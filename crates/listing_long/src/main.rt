// The listing program again, on a stored input of 20,000 records.
#![tactic(auto)]

fn main(rt: HostRuntime) {
    lines::list_input(&rt);
}
