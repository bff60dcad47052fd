// From a book to its bytes.
ghost use Rattle.std.specs.Prelude.{◌≡◌, ◌+◌, ◌*◌, ◌^◌, length};
ghost use Rattle.strings.specs.Number.{bytes_of};
ghost use Rattle.book.specs.Entry.{meaning};
ghost use Rattle.wire.specs.Bytes.{entry_bytes, entries_bytes, book_bytes};

use crate::{BOOK_BYTES, ENTRY_BYTES};
use book::{Book, Entry, SLOTS};

// The bytes of a book. Every field is written as it stands, so nothing is lost of any book.
pub fn book_bytes(b: Book) -> [u8; BOOK_BYTES]
    ensures { result ≡ book_bytes b }
{
    let mut out = [0u8; BOOK_BYTES];
    let entries = b.entries;
    put_entries(&mut out, entries);
    out
}

// Slot by slot, 1 to 24.
pub fn put_entries(out: &mut [u8], entries: [Entry; SLOTS])
    requires { length out.old ≡ 480 }
    ensures { out.new ≡ entries_bytes entries }
{
    for (i, e) in entries.iter().enumerate() {
        let a = i * ENTRY_BYTES;
        put_entry(&mut out[a..a + ENTRY_BYTES], *e);
    }
}

// The day, the even bits and the odd bits.
fn put_entry(out: &mut [u8], e: Entry)
    requires { length out.old ≡ 20 }
    ensures { out.new ≡ entry_bytes (meaning e) }
{
    put_number(&mut out[0..2], e.day as u64);
    put_nine(&mut out[2..11], e.etop, e.even);
    put_nine(&mut out[11..20], e.otop, e.odd);
}

// A number of 72 bits, from its highest byte and the rest.
fn put_nine(out: &mut [u8], top: u8, rest: u64)
    requires { length out.old ≡ 9 }
    ensures { out.new ≡ bytes_of 9 (top * 2 ^ 64 + rest) }
{
    out[0] = top;
    put_number(&mut out[1..9], rest);
}

// The lowest bytes of x, as many as out has room for, the highest of them first. They are written from
// the last on, where no weight is needed.
fn put_number(out: &mut [u8], x: u64)
    ensures { out.new ≡ bytes_of (length out.old) x }
{
    let mut rest = x;
    for i in (0..out.len()).rev() {
        out[i] = (rest % 256) as u8;
        rest /= 256;
    }
}
