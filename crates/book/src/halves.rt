// The words of an entry.
ghost use Rattle.std.specs.Prelude.{◌≡◌};
ghost use Rattle.book.specs.Entry.{meaning, even_words, odd_words};

use crate::Entry;
use records::{EvenString, Kind, OddString, even_of, odd_of};
use words::{add_at, values_in};

// The words of the even half.
pub fn even_words(e: Entry) -> EvenString
    ensures { result ≡ even_words (meaning e) }
{
    let mut s = [0u8; 11];
    add_at(&mut s, 75, e.etop as u64);
    add_at(&mut s, 43, e.even / 4294967296);
    add_at(&mut s, 11, e.even % 4294967296);
    even_of(values_in(&s, Kind::Even))
}

// The words of the odd half. The sender's l is no part of an entry, and reads 0.
pub fn odd_words(e: Entry) -> OddString
    ensures { result ≡ odd_words (meaning e) }
{
    let mut s = [0u8; 11];
    add_at(&mut s, 76, e.otop as u64);
    add_at(&mut s, 44, e.odd / 4294967296);
    add_at(&mut s, 12, e.odd % 4294967296);
    odd_of(values_in(&s, Kind::Odd))
}
