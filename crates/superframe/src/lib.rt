// The 75 strings of one satellite's superframe, from words alone.
#![tactic(auto)]

mod placing;
mod refusing;

pub use placing::{record_in, string_in};
use records::{EvenString, ImmediateWords, OddString, String5, String14};
pub use refusing::{in_order, lowest_bad};

// The words of an almanac entry. The odd half's own l is not looked at.
#[derive(Clone, Copy)]
pub struct AlmanacWords {
    pub even: EvenString,
    pub odd: OddString,
}

// What a superframe is made of. Entry k, from 1, is the almanac of slot k.
#[derive(Clone, Copy)]
pub struct Sky {
    pub words: ImmediateWords,
    pub five: String5,
    pub fourteen: String14,
    pub entries: [AlmanacWords; 24],
}
