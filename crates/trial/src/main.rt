// Makes any public call from standard input.
#![tactic(auto)]

fn main(rt: HostRuntime) {
    requests::answer_all(&rt);
}
