// The station lent to a host in C: it lies in the host's memory, and is changed in its place.
#![tactic(auto)]

mod offering;
mod resetting;
mod telling;

pub use offering::{spineyarrow_offer, sum_up};
pub use resetting::spineyarrow_reset;
