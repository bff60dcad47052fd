// The listing program: 16-byte records from standard input, offered to a fresh station for card one,
// and a line for each. Its stored input is the paper's example.
#![tactic(auto)]

fn main(rt: HostRuntime) {
    lines::list_input(&rt);
}
