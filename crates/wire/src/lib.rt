// A book as the 480 bytes that two sites exchange, or that one keeps over a restart.
#![tactic(auto)]

mod reading;
mod writing;

use book::SLOTS;
pub use reading::{book_from, entry_at};
pub use writing::{book_bytes, put_entries};

// How many bytes an entry has: its day two, the even string's bits nine, the odd string's nine.
pub const ENTRY_BYTES: usize = 20;

// And a book, slot by slot.
pub const BOOK_BYTES: usize = SLOTS * ENTRY_BYTES;
