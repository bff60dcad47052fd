// The books of two sites, joined.
#![tactic(auto)]

mod joining;

pub use joining::{join_books, join_site};
