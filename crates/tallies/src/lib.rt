// A channel's tallies: true counts that stay at their limit.
#![tactic(auto)]

mod counting;

pub use counting::{count_refused, count_taken, none_counted};

// The counts since the channel's reset: strings offered, taken clean, taken repaired, refused; and the
// refused ones by cause. A reset leaves all fourteen at 0. They are the last of a row, each a word of four
// bytes, where a host in C reads them.
#[repr(C)]
#[derive(Clone, Copy)]
pub struct Tallies {
    pub offered: u32,
    pub clean: u32,
    pub repaired: u32,
    pub refused: u32,
    pub causes: Causes,
}

// One tally for each refusal that an offer on a valid channel can get, in the order of the tests: 2; 31,
// 32 and 33, which are DAMAGED; 4 to 9.
#[repr(C)]
#[derive(Clone, Copy)]
pub struct Causes {
    pub shape: u32,
    pub unplaced: u32,
    pub even: u32,
    pub outside: u32,
    pub idle: u32,
    pub number: u32,
    pub early: u32,
    pub stale: u32,
    pub offbeat: u32,
    pub conflict: u32,
}
