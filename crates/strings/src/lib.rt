// The 85-bit navigation string of GLONASS: its bits, check and repair, and the numbers that say no.
// A string is eleven bytes: bit 85 is the top bit of the first, the last three bits of the eleventh
// are padding.
#![tactic(auto)]

mod bits;
mod checking;
mod hamming;
mod numbers;

pub use bits::{bit, flip_bit, well_shaped, word_in};
pub use checking::check;
pub use hamming::{Damage, make_check_bits};
pub use numbers::{refusal_number, wide};

// The numbers that say no, in the paper's order. DAMAGED has a number for each cause. RANGE tells its
// place: the top bit number of the word that failed.
#[derive(Clone, Copy)]
pub enum Refusal {
    Channel,
    Shape,
    Damaged(Damage),
    Idle,
    Number,
    Early,
    Stale,
    OffBeat,
    Conflict,
    Range(u8),
    Place,
    Room,
    Nothing,
    Slot,
    Owner,
    Card,
}

// What the check says of a string that it takes: as it came, or with the bit that it repaired. No Option,
// since None would not say that a string is clean.
#[derive(Clone, Copy)]
pub enum Verdict {
    Clean,
    Repaired(u8),
}
