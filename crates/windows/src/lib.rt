// A torn file of any length, salvaged a window of it at a time.
#![tactic(auto)]

mod stream;
mod window;
mod writing;

pub use stream::salvage_input;

// What is written of a file: the fields that are kept; a line for each stretch that is skipped; or the
// sixteen bytes of each offer that is kept.
#[derive(Clone, Copy)]
pub enum Wanted {
    Fields,
    Stretches,
    Records,
}

// Where the work stands: between two items, or within a stretch that began at this byte of the file. No
// Option, since None would not say between two items.
#[derive(Clone, Copy)]
pub enum Stands {
    Between,
    Since(usize),
}

// How many bytes of a window are passed and how many of the output are written, and where the work
// stands.
#[derive(Clone, Copy)]
pub struct Turn {
    pub passed: usize,
    pub written: usize,
    pub stands: Stands,
}
