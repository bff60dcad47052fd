// The navigation record of a channel's satellite: what the station's queries answer, as the four lines of a
// RINEX 2.11 GLONASS navigation record. It knows the station by its promises alone.
#![tactic(auto)]

mod gathering;
mod writing;

use strings::Refusal;
pub use writing::{answer_number, write_all, write_record};

// Why no record is written: the number that says no; or the output is not four lines long.
#[derive(Clone, Copy)]
pub enum Unwritten {
    Refused(Refusal),
    Lines,
}
