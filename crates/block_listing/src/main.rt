// One block from standard input, of any length, handed to a fresh station by card one: a line for each
// of its calls, and one for its end.
#![tactic(auto)]

fn main(rt: HostRuntime) {
    requests::list_block(&rt);
}
