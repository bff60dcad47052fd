// A block handed to a lent station, field by field, for a host in C.
#![tactic(auto)]

mod asking;
mod taking;

pub use taking::{spineyarrow_field, spineyarrow_next};
