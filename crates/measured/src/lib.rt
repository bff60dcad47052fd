// The calls that bench/ measures, exported for C. Each answers a number, so that no result is
// left unused.
#![tactic(auto)]

mod parts;
mod whole;

pub use parts::{measured_read, measured_relative, measured_write};
pub use whole::{measured_offers, top_of_slot_1};
