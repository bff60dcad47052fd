// A lent station's book, as the bytes that another site joins.
ghost use Rattle.lent_sites.specs.Lent.{SendsLent};

use station::Station;
use wire::{BOOK_BYTES, put_entries};

// Writes the book's 480 bytes. A room that is not of that many bytes is told 12 ROOM, and stays as it was.
#[unsafe(no_mangle)]
pub extern "C" fn spineyarrow_book(st: &Station, out: &mut [u8]) -> u64
    ensures { SendsLent st.now out.old out.new result }
{
    if out.len() != BOOK_BYTES {
        return 12;
    }
    put_entries(out, st.book.entries);
    0
}
