// Numbers in decimal, as a navigation file has them: `sd.ddddddddddddDsee`.
#![tactic(auto)]

mod digits;
mod number;
mod rounding;

pub use digits::put_digits;
pub use number::{put_decimal, put_negated};
