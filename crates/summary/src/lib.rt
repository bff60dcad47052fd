// The summary of a book: how many slots are filled, the oldest day and the newest.
#![tactic(auto)]

mod lending;
mod lines;
mod walking;

pub use lending::{walk_book, walk_lent};
pub use walking::walk;

// How many lines hold an entry, the oldest of their days and the newest: 0, 0, 0 where none does, for
// C too.
#[repr(C)]
#[derive(Clone, Copy)]
pub struct Summary {
    pub count: u64,
    pub oldest: u16,
    pub newest: u16,
}
