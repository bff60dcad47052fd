// `trial` again, on a station that is fresh but for its tallies, which all stand near their limit: no run
// reaches it from 0.
#![tactic(auto)]

use station::Station;
use tallies::{Causes, Tallies};

// Three offers before the limit.
const NEAR: u32 = 4294967293;

fn near_limit() -> Tallies {
    Tallies {
        offered: NEAR,
        clean: NEAR,
        repaired: NEAR,
        refused: NEAR,
        causes: Causes {
            shape: NEAR,
            unplaced: NEAR,
            even: NEAR,
            outside: NEAR,
            idle: NEAR,
            number: NEAR,
            early: NEAR,
            stale: NEAR,
            offbeat: NEAR,
            conflict: NEAR,
        },
    }
}

fn main(rt: HostRuntime) {
    let mut row = channel::empty_row();
    row.tallies = near_limit();
    let mut st = station::fresh();
    st.rows = [row; station::CHANNELS];
    requests::answer_from(&rt, st);
}
