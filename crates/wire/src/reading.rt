// From bytes to a book.
ghost use Rattle.std.specs.Prelude.{◌≡◌, ◌*◌, ◌≤◌, ◌<◌, length, take, drop};
ghost use Rattle.strings.specs.Number.{value_of};
ghost use Rattle.wire.specs.Bytes.{entry_from, book_from};

use crate::{BOOK_BYTES, ENTRY_BYTES};
use book::{Book, Entry, empty_book};

// The book of any 480 bytes: none are refused, since all have a meaning.
pub fn book_from(bytes: [u8; BOOK_BYTES]) -> Book
    ensures { result ≡ book_from bytes }
{
    let mut b = empty_book();
    for (i, e) in b.entries.iter_mut().enumerate() {
        *e = entry_at(&bytes, i);
    }
    b
}

// The entry at place i, from 0.
pub fn entry_at(s: &[u8], i: usize) -> Entry
    requires { (length s.now ≡ 480) × (i < 24) }
    ensures { result ≡ entry_from (take 20 (drop (i * 20) s.now)) }
{
    let a = i * ENTRY_BYTES;
    let e = a + ENTRY_BYTES;
    entry_in(&s[a..e])
}

// Each number of nine bytes is the high byte and the low eight.
fn entry_in(s: &[u8]) -> Entry
    requires { length s.now ≡ 20 }
    ensures { result ≡ entry_from s.now }
{
    Entry {
        even: number_in(&s[3..11]),
        odd: number_in(&s[12..20]),
        day: number_in(&s[0..2]) as u16,
        etop: s[2],
        otop: s[11],
    }
}

// At most eight bytes as one number, the first highest.
fn number_in(s: &[u8]) -> u64
    requires { length s.now ≤ 8 }
    ensures { result ≡ value_of s.now }
{
    let mut x: u64 = 0;
    for b in s {
        x = x * 256 + (*b as u64);
    }
    x
}
