// What a line of the listing tells of an offer beside its channel and its epoch.
#![tactic(auto)]

mod seeing;

pub use seeing::{Seen, number_told, seen_by};
