// The walk by value.
ghost use Rattle.std.specs.Prelude.{◌≡◌};
ghost use Rattle.summary.specs.Walk.{walk_of};

use crate::Summary;
use crate::lending::walk_lent;
use book::{Entry, SLOTS};

// The summary of a book's entries. It lends them to `walk_lent`, whose loop is the only one.
pub fn walk(entries: [Entry; SLOTS]) -> Summary
    ensures { result ≡ walk_of entries }
{
    walk_lent(&entries)
}
