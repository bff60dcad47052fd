// What is told of a part that was copied out: numbers written into an output of the host's, or in one
// number, which is C's only way to be told of a refusal. An output that has not the wanted number of elements is told 12 ROOM, and left as it was.
ghost use Rattle.std.specs.Prelude.{◌≡◌, ◌*◌, ◌≤◌, length, [], ◌∷◌};
ghost use Rattle.strings.specs.Numbers.{first_of};
ghost use Rattle.book.specs.Book.{slots};
ghost use Rattle.station.specs.Station.{card_test};
ghost use Rattle.station.specs.Queries.{summary_numbers, all_counts, health_number};
ghost use Rattle.lent_queries.specs.Lent.{slot_tests, PutsOut, entry_list, PutsEntry, words_list, PutsRecord};
ghost use Rattle.lent_queries.specs.Health.{slot_of, health_at};

use book::{Entry, LAST_SLOT, even_words, odd_words};
use channel::Row;
use immediate::has_record;
use records::{EvenString, ImmediateWords, OddString};
use station::{health_number, is_card, judge, l_counted};
use summary::Summary;
use words::{immediate_words, word_in};

// Whether a number is a card's: 0, or 16 CARD.
pub fn card_number(card: u8) -> u64
    ensures { result ≡ first_of (card_test card ∷ []) }
{
    if !is_card(card) {
        return 16;
    }
    0
}

// Whether a call on a slot is let in: 0, or 16 CARD, 14 SLOT.
pub fn slot_number(card: u8, slot: u8) -> u64
    ensures { result ≡ first_of (slot_tests card slot) }
{
    let shut = card_number(card);
    if 0 < shut {
        return shut;
    }
    if slot == 0 {
        return 14;
    }
    if LAST_SLOT < slot {
        return 14;
    }
    0
}

// How many slots are filled, the oldest day and the newest.
pub fn put_summary(s: Summary, out: &mut [u64]) -> u64
    ensures { PutsOut 3 (summary_numbers s) out.old out.new result }
{
    if out.len() != 3 {
        return 12;
    }
    out[0] = s.count;
    out[1] = s.oldest as u64;
    out[2] = s.newest as u64;
    0
}

// A channel's tallies: the four, and those of the causes in the order of the tests.
pub fn put_tallies(row: Row, out: &mut [u32]) -> u64
    ensures { PutsOut 14 (all_counts row.tallies) out.old out.new result }
{
    let t = row.tallies;
    let c = t.causes;
    let made = [
        t.offered, t.clean, t.repaired, t.refused, c.shape, c.unplaced, c.even, c.outside, c.idle,
        c.number, c.early, c.stale, c.offbeat, c.conflict,
    ];
    put_all(&made, out)
}

// All of what is made, into an output of as many elements.
fn put_all(made: &[u32], out: &mut [u32]) -> u64
    ensures { PutsOut (length made.now) made.now out.old out.new result }
{
    if out.len() != made.len() {
        return 12;
    }
    copy_all(made, out);
    0
}

// A loop, and not std's `copy_from_slice`: that one lays the fourteen tallies on the stack first.
fn copy_all(made: &[u32], out: &mut [u32])
    requires { length out.old ≡ length made.now }
    ensures { out.new ≡ made.now }
{
    for (i, &n) in made.iter().enumerate() {
        out[i] = n;
    }
}

// An entry: its day, the words of its even half, and those of its odd half but for the sender's l. 12
// ROOM, and then 13 NOTHING where the slot is empty.
pub fn put_entry(e: Entry, out: &mut [i32]) -> u64
    ensures { PutsEntry e out.old out.new result }
{
    if out.len() != 13 {
        return 12;
    }
    if e.day == 0 {
        return 13;
    }
    let made = entry_list(e.day, even_words(e), odd_words(e));
    out.copy_from_slice(&made);
    0
}

fn entry_list(day: u16, a: EvenString, b: OddString) -> [i32; 13]
    ensures { result ≡ entry_list day a b }
{
    [
        day as i32, a.c, a.ma, a.na, a.taua, a.lambda, a.di, a.epsilon, b.omega, b.tlambda, b.dt,
        b.dtrate, b.h,
    ]
}

// A row's record: its 26 words in the order of the strings, and the start of its frame. 12 ROOM, and then
// 13 NOTHING where there is no record.
pub fn put_record(row: Row, words: &mut [i32], start: &mut u32) -> u64
    ensures { PutsRecord row.immediate words.old start.old words.new start.new result }
{
    if words.len() != 26 {
        return 12;
    }
    let kept = row.immediate;
    if !has_record(kept) {
        return 13;
    }
    let s = kept.strings;
    let made = record_list(immediate_words(s));
    words.copy_from_slice(&made);
    *start = kept.start;
    0
}

fn record_list(w: ImmediateWords) -> [i32; 26]
    ensures { result ≡ words_list w }
{
    let a = w.one;
    let b = w.two;
    let c = w.three;
    let d = w.four;
    [
        a.p1, a.tk, a.xvel, a.xacc, a.x, b.b, b.p2, b.tb, b.yvel, b.yacc, b.y, c.p3, c.gamma, c.p,
        c.l, c.zvel, c.zacc, c.z, d.tau, d.dtau, d.e, d.p4, d.ft, d.nt, d.n, d.m,
    ]
}

// The slot of the satellite that a row's record is of; 0 where there is no record, or its n is no slot, as in
// `slot_of` of specs/Health.antt, of which the theorems speak.
pub fn slot_of(row: Row) -> usize
    ensures { (result ≡ slot_of row.immediate) × (result ≤ slots) }
{
    let kept = row.immediate;
    if !has_record(kept) {
        return 0;
    }
    let s = kept.strings;
    let n = word_in(&s[33..44], 15, 11);
    if (LAST_SLOT as u32) < n {
        return 0;
    }
    n as usize
}

// The health of that satellite by its entry, as the answer has it: above the lowest byte.
pub fn health_told(row: Row, e: Entry) -> u64
    ensures { result ≡ 256 * health_number (health_at row.immediate e) }
{
    if e.day == 0 {
        return 0;
    }
    let kept = row.immediate;
    let s = kept.strings;
    let bad = word_in(&s[11..22], 80, 80);
    let l = l_counted(kept);
    256 * (health_number(judge(bad, l, e.etop)) as u64)
}
