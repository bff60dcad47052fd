// The line symbols of one satellite's superframe, from words alone.
#![tactic(auto)]

mod line;
mod making;

pub use making::make_sky;
use strings::Refusal;

// Why no symbols are written: the entries are not slots 1 to 24 in order; or the number that says no, where
// RANGE tells the place of the string, 1 to 75.
#[derive(Clone, Copy)]
pub enum Unmade {
    OutOfOrder,
    Refused(Refusal),
}
