// A block of fields handed to a station: field by field, or whole.
#![tactic(auto)]

mod handing;
mod taking;

use channel::TakenString;
use fields::Why;
pub use handing::hand_over;
use station::Station;
use strings::Refusal;
pub use taking::take_field;

// What a field leads to: the end of the block; an offer's own answer; a reset's own; a remark, which
// has none; or what says no to the field, with its place.
#[derive(Clone, Copy)]
pub enum Told {
    End,
    Offered(Result<TakenString, Refusal>),
    Emptied(Result<(), Refusal>),
    Remark,
    Refused(Why, usize),
}

// The station after a field, what the field led to, and the place of the next, which is its own where
// it is refused and at the end.
#[derive(Clone, Copy)]
pub struct Taken {
    pub station: Station,
    pub told: Told,
    pub after: usize,
}

// The station after a block, and how it ended: whole, or with a field that is refused, at its place.
#[derive(Clone, Copy)]
pub struct Handed {
    pub station: Station,
    pub ended: Result<(), (Why, usize)>,
}
