// The line that answers a request to the station, in the paper's numbers.
ghost use Rattle.std.specs.Prelude.{◌≤◌};

use crate::answers::{bit_of, say_no, say_ok};
use crate::line::{Text, put_digits, put_next, put_pair, put_text};
use crate::words_told::put_record;
use book::Entry;
use channel::{News, TakenString};
use records::{ImmediateWords, Record};
use relative::polarity_number;
use strings::Refusal;
use summary::Summary;
use tallies::Tallies;

// `taken M BIT NEWS P`, BIT 0 where the string was clean, P 0 where its symbols came upright and 1 where
// inverted.
pub(crate) fn say_offered(text: &mut Text, a: Result<TakenString, Refusal>) -> usize
    ensures { result ≤ 512 }
{
    match a {
        Err(r) => say_no(text, r),
        Ok(said) => {
            let taken = put_text(text, 0, b"taken");
            let number = put_next(text, taken, said.m as u64);
            let bit = put_next(text, number, bit_of(said.verdict) as u64);
            let told = put_next(text, bit, news_number(said.news) as u64);
            put_next(text, told, polarity_number(said.polarity) as u64)
        }
    }
}

fn news_number(news: News) -> u8 {
    match news {
        News::AlreadyHeld => 0,
        News::Kept => 1,
        News::RecordBuilt => 2,
        News::RecordOutOfRange => 3,
    }
}

// `ok`.
pub(crate) fn say_emptied(text: &mut Text, w: Result<(), Refusal>) -> usize
    ensures { result ≤ 512 }
{
    match w {
        Err(r) => say_no(text, r),
        Ok(()) => say_ok(text),
    }
}

// `ok`, and the 26 words of strings 1 to 4.
pub(crate) fn put_immediate(text: &mut Text, w: ImmediateWords) -> usize
    ensures { result ≤ 512 }
{
    let one = w.one;
    let two = w.two;
    let three = w.three;
    let four = w.four;
    let mut at = say_ok(text);
    at = put_record(text, at, Record::One(one));
    at = put_record(text, at, Record::Two(two));
    at = put_record(text, at, Record::Three(three));
    put_record(text, at, Record::Four(four))
}

// `ok DAY EVEN ODD`.
pub(crate) fn put_entry(text: &mut Text, e: Entry) -> usize
    ensures { result ≤ 512 }
{
    let ok = say_ok(text);
    let day = put_next(text, ok, e.day as u64);
    let even = put_half(text, day, e.etop, e.even);
    put_half(text, even, e.otop, e.odd)
}

// A half's bits as one number of 18 digits, behind a space: the top in two digits, the rest in 16.
fn put_half(text: &mut Text, at: usize, top: u8, rest: u64) -> usize
    requires { at ≤ 512 }
    ensures { result ≤ 512 }
{
    let space = put_text(text, at, b" ");
    let high = put_pair(text, space, top);
    put_digits(text, high, rest, 16)
}

// `ok OFFERED CLEAN REPAIRED REFUSED`, and the refused by cause, in the order of the tests: by 2 to 4, and then by
// 5 to 9.
pub(crate) fn put_tallies(text: &mut Text, t: Tallies) -> usize
    ensures { result ≤ 512 }
{
    let c = t.causes;
    let ok = say_ok(text);
    let whole = put_counts(text, ok, &[t.offered, t.clean, t.repaired, t.refused]);
    let till_4 = put_counts(
        text,
        whole,
        &[c.shape, c.unplaced, c.even, c.outside, c.idle],
    );
    put_counts(
        text,
        till_4,
        &[c.number, c.early, c.stale, c.offbeat, c.conflict],
    )
}

// Each count behind a space.
fn put_counts(text: &mut Text, at: usize, counts: &[u32]) -> usize
    requires { at ≤ 512 }
    ensures { result ≤ 512 }
{
    let mut to = at;
    for count in counts {
        to = put_next(text, to, *count as u64);
    }
    to
}

// `ok COUNT OLDEST NEWEST`.
pub(crate) fn put_summary(text: &mut Text, s: Summary) -> usize
    ensures { result ≤ 512 }
{
    let ok = say_ok(text);
    let count = put_next(text, ok, s.count);
    let oldest = put_next(text, count, s.oldest as u64);
    put_next(text, oldest, s.newest as u64)
}
