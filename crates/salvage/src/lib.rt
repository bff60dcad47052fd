// What can still be read of a torn file of fields: the fields found are copied to an output, and the
// stretches between them that are skipped go to a list.
#![tactic(auto)]

mod salvaging;
mod searching;
mod writing;

pub use salvaging::salvage;
pub use searching::goes_on;
pub use writing::end_number;

// Why a salvage stops before the end of the file: there is no room in the output for the field at this byte of the
// file, or none in the list for the stretch that starts at it.
#[derive(Clone, Copy)]
pub enum Full {
    Output(usize),
    List(usize),
}

// How many bytes and how many stretches are written, and whether the whole file is told or why not.
#[derive(Clone, Copy)]
pub struct Salvaged {
    pub written: usize,
    pub stretches: usize,
    pub ended: Result<(), Full>,
}
