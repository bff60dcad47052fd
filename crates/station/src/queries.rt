// The calls that ask a station.
ghost use Rattle.std.specs.Prelude.{◌≡◌, ◌/◌, ◌%◌};
ghost use Rattle.station.specs.Queries.{FindsRecord, FindsEntry, FindsTallies, FindsSummary, FindsHealth, health_by, l_of, model_of, l_counted, judged, health_number};

use crate::entering::{enter, is_card};
use crate::{Health, Station};
use book::{Book, Entry, LAST_SLOT, entry_in};
use immediate::{Immediate, has_record};
use records::ImmediateWords;
use strings::Refusal;
use summary::Summary;
use tallies::Tallies;
use words::{immediate_words, word_in};

// The words of a channel's immediate record, and the start of the frame that it was read from.
pub fn immediate_of(st: Station, card: u8, channel: u8) -> Result<(ImmediateWords, u32), Refusal>
    ensures { FindsRecord st card channel result }
{
    let four = st.rows[enter(card, channel)?].immediate;
    if has_record(four) {
        Ok((immediate_words(four.strings), four.start))
    } else {
        Err(Refusal::Nothing)
    }
}

// The entry of a slot; the book's slots are numbered from 1.
pub fn entry_of(st: Station, card: u8, slot: u8) -> Result<Entry, Refusal>
    ensures { FindsEntry st card slot result }
{
    if !is_card(card) {
        return Err(Refusal::Card);
    }
    if slot == 0 {
        return Err(Refusal::Slot);
    }
    if LAST_SLOT < slot {
        return Err(Refusal::Slot);
    }
    let b = st.book;
    let e = entry_in(b, slot);
    if e.day == 0 {
        return Err(Refusal::Nothing);
    }
    Ok(e)
}

// A channel's tallies.
pub fn tallies_of(st: Station, card: u8, channel: u8) -> Result<Tallies, Refusal>
    ensures { FindsTallies st card channel result }
{
    let t = st.rows[enter(card, channel)?].tallies;
    Ok(t)
}

// How many slots are filled, the oldest day and the newest: as kept, with no walk.
pub fn summary_of(st: Station, card: u8) -> Result<Summary, Refusal>
    ensures { FindsSummary st card result }
{
    if is_card(card) {
        Ok(st.summary)
    } else {
        Err(Refusal::Card)
    }
}

// The health of the satellite that a channel's record is of.
pub fn health_of(st: Station, card: u8, channel: u8) -> Result<Health, Refusal>
    ensures { FindsHealth st card channel result }
{
    let kept = st.rows[enter(card, channel)?].immediate;
    Ok(health_by(kept, st.book))
}

// Without a record, or without a book entry for its n, it is unknown.
fn health_by(kept: Immediate, b: Book) -> Health
    ensures { result ≡ health_by kept b }
{
    if !has_record(kept) {
        return Health::Unknown;
    }
    let s = kept.strings;
    let n = word_in(&s[33..44], 15, 11);
    if n == 0 {
        return Health::Unknown;
    }
    if (LAST_SLOT as u32) < n {
        return Health::Unknown;
    }
    let e = entry_in(b, n as u8);
    if e.day == 0 {
        return Health::Unknown;
    }
    let bad = word_in(&s[11..22], 80, 80);
    let l = l_counted(kept);
    judge(bad, l, e.etop)
}

// l of a record, where it counts: bit 65 of string 3, which is a reserved bit where M is 00.
pub fn l_counted(kept: Immediate) -> u32
    ensures { result ≡ l_counted (model_of kept) (l_of kept) }
{
    let s = kept.strings;
    let bit65 = word_in(&s[22..33], 65, 65);
    let model = word_in(&s[33..44], 10, 9);
    if model == 0 {
        return 0;
    }
    bit65
}

// By the top bit of B, by l, and by C, the top bit of the entry's even half.
pub fn judge(bad: u32, l: u32, etop: u8) -> Health
    ensures { result ≡ judged bad l (etop / 128 % 2) }
{
    if bad == 0 {
        if l == 0 {
            if 128 <= etop {
                return Health::Usable;
            }
        }
    }
    Health::NotUsable
}

// In one number: 0 unknown, 1 usable, 2 not usable.
pub fn health_number(h: Health) -> u8
    ensures { result ≡ health_number h }
{
    match h {
        Health::Unknown => 0,
        Health::Usable => 1,
        Health::NotUsable => 2,
    }
}
