// Numbers for a host in C: a string checked, a signed word as a float, the immediate record of four
// strings. Each call answers the paper's numbers in one, the first in the lowest byte; a refusal
// leaves every output as it was.
#![tactic(auto)]

mod calls;
mod reading;
mod record;

pub use calls::{spineyarrow_check, spineyarrow_immediate, spineyarrow_word};
