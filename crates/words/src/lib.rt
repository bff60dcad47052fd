// The words of a string: their values, the reader and the encoder of the eight kinds.
#![tactic(auto)]

mod reading;
mod values;
mod writing;

pub use reading::{immediate_words, read_words};
pub use strings::word_in;
pub use values::{magnitude, number_in, values_in};
pub use writing::{add_at, write_words};
