// Where the words of the eight kinds of string stand, and which string numbers a kind has.
#![tactic(auto)]

mod kinds;
mod table;

pub use kinds::is_of_kind;
pub use table::{Form, Word, word_at};
