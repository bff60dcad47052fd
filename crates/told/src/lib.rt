// Answers in one number, for a host in C.
#![tactic(auto)]

mod telling;

pub use telling::{checked_told, refusal_told, verdict_told, written_told};
