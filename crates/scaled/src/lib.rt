// The signed words as 64-bit floats: each raw number times its unit, without rounding.
#![tactic(auto)]

mod scaling;
mod table;

pub use scaling::scaled;
pub use table::{SignedWord, signed_word};
