// The walk over lent lines.
ghost use Rattle.std.specs.Prelude.{◌≡◌};
ghost use Rattle.summary.specs.Walk.{walk_of};

use crate::Summary;
use crate::lines::{none_filled, with_line};
use book::{Entry, SLOTS};

// The summary of lent lines, however many.
pub fn walk_lent(book: &[Entry]) -> Summary
    ensures { result ≡ walk_of book.now }
{
    let mut s = none_filled();
    for e in book {
        s = with_line(s, *e);
    }
    s
}

// The summary of a book's entries: they are lent to the walk, so that whoever has them by value can
// call it.
pub fn walk_book(entries: [Entry; SLOTS]) -> Summary
    ensures { result ≡ walk_of entries }
{
    walk_lent(&entries)
}
