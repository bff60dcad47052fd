// A RINEX 2.11 GLONASS navigation record: four lines, from the words of an immediate record.
#![tactic(auto)]

mod epoch;
mod lines;
mod record;

pub use record::record_text;
