// The station of two cards: a row for each of their 48 channels, one book and its summary. Strings go in by card
// and channel; the book, what it holds in short, the records, the tallies and the health of a satellite come out.
#![tactic(auto)]

mod entering;
mod offering;
mod queries;

use book::Book;
use channel::{Row, TakenString};
pub use entering::{enter, gate_number, is_card};
pub use offering::{fresh, next_summary, offer, reset};
pub use queries::{
    entry_of, health_number, health_of, immediate_of, judge, l_counted, summary_of, tallies_of,
};
use strings::Refusal;
use summary::Summary;

// How many channels a card has. The first of them are card one's.
pub const CARD_CHANNELS: usize = 24;

// How many channels the station has, of both cards.
pub const CHANNELS: usize = 2 * CARD_CHANNELS;

// All that the cards know: a row for each channel, the almanac book that they share, and the book's
// summary.
#[repr(C)]
#[derive(Clone, Copy)]
pub struct Station {
    pub rows: [Row; CHANNELS],
    pub book: Book,
    pub summary: Summary,
}

// An offer's answer, or why not, and the station after it.
#[derive(Clone, Copy)]
pub struct Stepped {
    pub station: Station,
    pub answer: Result<TakenString, Refusal>,
}

// Whether a channel was reset, or why not, and the station after it.
#[derive(Clone, Copy)]
pub struct Emptied {
    pub station: Station,
    pub answer: Result<(), Refusal>,
}

// The health of a channel's satellite.
#[derive(Clone, Copy)]
pub enum Health {
    Unknown,
    Usable,
    NotUsable,
}
