// What stands in the bytes that a station is fed from: the sixteen of an offer, and the fields of a
// block.
#![tactic(auto)]

mod finding;
pub mod reader;
mod sixteen;

pub use finding::{field_at, size_at, why_number};
pub use reader::next_at;
pub use sixteen::{channel_in, epoch_in, symbols_in};

// What says no to a field: an unknown tag, a wrong length for the tag, a block that ends inside it.
#[derive(Clone, Copy)]
pub enum Why {
    Tag,
    Length,
    Cut,
}

// What stands at a place of a block: its end; an offer, with the place of its sixteen bytes; a reset,
// with the place of the channel's byte; a remark; or a field that is refused, with its own place.
#[derive(Clone, Copy)]
pub enum Field {
    End,
    Offer(usize),
    Reset(usize),
    Remark,
    Refused(Why, usize),
}

// A field and the place after it, which is its own where it is refused or the block's end.
#[derive(Clone, Copy)]
pub struct Found {
    pub field: Field,
    pub after: usize,
}
