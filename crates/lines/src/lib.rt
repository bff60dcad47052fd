// The listing: records of sixteen bytes offered to a station for card one, and a line of six numbers
// for each.
#![tactic(auto)]

mod printing;
mod record_lines;
mod stream;

use station::Station;
pub use stream::list_input;

// The six numbers, in the order in which they are printed.
#[derive(Clone, Copy)]
struct Line {
    channel: u8,
    epoch: u32,
    number: u8,
    repaired: u8,
    m: u8,
    polarity: u8,
}

// A record's line, and the station after it.
#[derive(Clone, Copy)]
struct Listed {
    station: Station,
    line: Line,
}

// The station after the records of an input, and how many bytes of the text their lines are.
#[derive(Clone, Copy)]
struct Printed {
    station: Station,
    end: usize,
}
