// What is written from a row and an entry that were copied out, and told in one number.
ghost use Rattle.std.specs.Prelude.{◌≡◌, take};
ghost use Rattle.navigation.specs.Writes.{answer_paper};
ghost use Rattle.told.specs.Told.{packed};
ghost use Rattle.lent_navigation.specs.Lent.{PutsNavigation};

use book::{Entry, odd_words};
use channel::Row;
use navigation::{Unwritten, write_all};
use navigation_queries::{five_words, has_five};
use told::refusal_told;
use words::immediate_words;

// The record of a row's satellite, of which e is the entry: 13 NOTHING where string 5 of the record's frame
// is missing, or the entry is. C is told one number.
pub fn put_navigation(row: Row, e: Entry, out: &mut [u8]) -> u64
    ensures { PutsNavigation row e out.old out.new result }
{
    if !has_five(row) {
        return 13;
    }
    if e.day == 0 {
        return 13;
    }
    let kept = row.immediate;
    let s = kept.strings;
    let words = immediate_words(s);
    let all = row.strings;
    let five = five_words(all);
    let odd = odd_words(e);
    navigation_told(write_all(out, words, five.n4, odd.h))
}

// The first two of its numbers: the third, the quarter of an hour, is above a byte.
fn navigation_told(a: Result<(u8, u32), Unwritten>) -> u64
    ensures { result ≡ packed (take 2 (answer_paper a)) }
{
    match a {
        Ok((n, _)) => 256 * (n as u64),
        Err(Unwritten::Refused(why)) => refusal_told(why) as u64,
        Err(Unwritten::Lines) => 17,
    }
}
