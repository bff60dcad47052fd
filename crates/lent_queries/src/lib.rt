// The calls of a host in C that ask a station which lies in the host's memory: it is only read, and of
// it one row, one entry or the summary is copied.
#![tactic(auto)]

mod asking;
mod copying;
mod telling;

pub use asking::{
    spineyarrow_entry, spineyarrow_health, spineyarrow_record, spineyarrow_summary,
    spineyarrow_tallies,
};
pub use copying::{entry_in, row_in};
pub use telling::slot_of;
