// Another site's book, joined into a lent station's own, slot by slot and in its place.
ghost use Rattle.std.specs.Prelude.{◌≡◌, length};
ghost use Rattle.lent_sites.specs.Lent.{JoinsLent, JoinsEntries};

use book::{Entry, greater_of};
use lent::sum_up;
use station::Station;
use wire::{BOOK_BYTES, entry_at};

// Joins the book that 480 bytes are. Any other length is told 2 SHAPE, and then nothing changes.
#[unsafe(no_mangle)]
pub extern "C" fn spineyarrow_join(st: &mut Station, book: &[u8]) -> u64
    ensures { JoinsLent st.old book.now st.new result }
{
    if book.len() != BOOK_BYTES {
        return 2;
    }
    join_entries(st, book);
    sum_up(st, true);
    0
}

// Of each slot the greater entry, in its place.
fn join_entries(st: &mut Station, book: &[u8])
    requires { length book.now ≡ 480 }
    ensures { JoinsEntries st.old book.now st.new }
{
    let entries: &mut [Entry] = &mut st.book.entries;
    for (i, entry) in entries.iter_mut().enumerate() {
        *entry = greater_of(*entry, entry_at(book, i));
    }
}
