// One channel: its row, and what becomes of a string offered to it.
#![tactic(auto)]

mod completing;
mod offering;
mod placing;
mod rows;

use immediate::Immediate;
pub use offering::{is_stored, offer};
use relative::Polarity;
pub use rows::{empty_row, has_string};
use strings::{Refusal, Verdict};
use tallies::Tallies;

// The latest immediate record; fifteen strings of one frame, eleven bytes each; the frame's start; a
// mask of the strings that are present, string m at bit m-1; and the tallies. All zero is a reset
// row. The record comes first so that both it and the strings begin at a whole word, which the card
// copies four times as fast.
#[repr(C)]
#[derive(Clone, Copy)]
pub struct Row {
    pub immediate: Immediate,
    pub strings: [u8; 165],
    pub start: u32,
    pub present: u16,
    pub tallies: Tallies,
}

// The numbers of a row's frame, beside its strings: its start, and its mask.
#[derive(Clone, Copy)]
pub struct Head {
    pub start: u32,
    pub present: u16,
}

// What becomes of a checked string that is not refused: it is held already, or new in the frame of a
// start, with the mask of the strings that this frame has. No Option, since None would not say held.
#[derive(Clone, Copy)]
pub enum Fate {
    Held,
    New(u32, u16),
}

// What is said of a plain string, m, the check's verdict and the news, or why not; and the numbers of the
// row after it.
#[derive(Clone, Copy)]
pub struct Moved {
    pub head: Head,
    pub answer: Result<(u8, Verdict, News), Refusal>,
}

// What a taken string brought.
#[derive(Clone, Copy)]
pub enum News {
    AlreadyHeld,
    Kept,
    RecordBuilt,
    RecordOutOfRange,
}

// What is told of a string that is taken: m, the check's verdict, the news, and the polarity of the symbols.
#[derive(Clone, Copy)]
pub struct TakenString {
    pub m: u8,
    pub verdict: Verdict,
    pub news: News,
    pub polarity: Polarity,
}

// An offer's answer, or why not, and the row after it.
#[derive(Clone, Copy)]
pub struct Offered {
    pub row: Row,
    pub answer: Result<TakenString, Refusal>,
}
