// The navigation file of a capture: a header, and a record of each satellite and epoch that its channels
// tell along it. A capture is the listing's records, offered by one card to a fresh station.
#![tactic(auto)]

mod asking;
mod capture;
mod header;
mod stream;

use station::Station;
pub use stream::write_file;

// The station that hears the capture, and the epoch last written for each satellite, 0 where none is.
#[derive(Clone, Copy)]
struct Office {
    station: Station,
    written: [u32; 25],
}

// The office afterwards, and the place in the text past what was written.
#[derive(Clone, Copy)]
struct Told {
    office: Office,
    end: usize,
}
