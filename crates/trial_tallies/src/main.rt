// `trial` again, on 65,540 strings of one channel, each repaired: more than 16 bits count.
#![tactic(auto)]

fn main(rt: HostRuntime) {
    requests::answer_all(&rt);
}
