// The relative code of a string (ICD 3.3.2.2): what is sent in the place of a bit is the bit added,
// modulo 2, to what was sent before.
#![tactic(auto)]

mod coding;

pub use coding::{from_relative, polarity_in, polarity_number, to_relative};

// Which way up the symbols came: the tracking loop can lock half a turn off, and then every one of
// them is inverted.
#[derive(Clone, Copy)]
pub enum Polarity {
    Upright,
    Inverted,
}
