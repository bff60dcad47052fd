// The calls that ask the station: the channel, or the slot, in one byte. A summary has no payload.
ghost use Rattle.std.specs.Prelude.{◌≤◌, IfOk};

use crate::answers::{Unanswered, say_ok};
use crate::line::{Text, put_next};
use crate::payloads::bytes;
use crate::station_answers::{put_entry, put_immediate, put_summary, put_tallies};
use crate::words_told::put_entry_words;
use station::{Station, health_number};

// `ok`, the 26 words of strings 1 to 4, and the start of their frame.
pub(crate) fn immediate_call(
    card: u8,
    own: &[u8],
    st: Station,
    text: &mut Text,
) -> Result<usize, Unanswered>
    ensures { IfOk result (λ n. n ≤ 512) }
{
    let [channel] = bytes::<1>(own)?;
    let (words, start) = station::immediate_of(st, card, channel)?;
    let told = put_immediate(text, words);
    Ok(put_next(text, told, start as u64))
}

// `ok DAY EVEN ODD`.
pub(crate) fn entry_call(
    card: u8,
    own: &[u8],
    st: Station,
    text: &mut Text,
) -> Result<usize, Unanswered>
    ensures { IfOk result (λ n. n ≤ 512) }
{
    let [slot] = bytes::<1>(own)?;
    let entry = station::entry_of(st, card, slot)?;
    Ok(put_entry(text, entry))
}

// `ok OFFERED CLEAN REPAIRED REFUSED N2 N31 N32 N33 N4 N5 N6 N7 N8 N9`.
pub(crate) fn tallies_call(
    card: u8,
    own: &[u8],
    st: Station,
    text: &mut Text,
) -> Result<usize, Unanswered>
    ensures { IfOk result (λ n. n ≤ 512) }
{
    let [channel] = bytes::<1>(own)?;
    let tallies = station::tallies_of(st, card, channel)?;
    Ok(put_tallies(text, tallies))
}

// `ok HEALTH`.
pub(crate) fn health_call(
    card: u8,
    own: &[u8],
    st: Station,
    text: &mut Text,
) -> Result<usize, Unanswered>
    ensures { IfOk result (λ n. n ≤ 512) }
{
    let [channel] = bytes::<1>(own)?;
    let health = station::health_of(st, card, channel)?;
    let ok = say_ok(text);
    Ok(put_next(text, ok, health_number(health) as u64))
}

// `ok` and the twelve words of the entry.
pub(crate) fn entry_words_call(
    card: u8,
    own: &[u8],
    st: Station,
    text: &mut Text,
) -> Result<usize, Unanswered>
    ensures { IfOk result (λ n. n ≤ 512) }
{
    let [slot] = bytes::<1>(own)?;
    let entry = station::entry_of(st, card, slot)?;
    let ok = say_ok(text);
    Ok(put_entry_words(text, ok, entry))
}

// `ok COUNT OLDEST NEWEST`.
pub(crate) fn summary_call(
    card: u8,
    own: &[u8],
    st: Station,
    text: &mut Text,
) -> Result<usize, Unanswered>
    ensures { IfOk result (λ n. n ≤ 512) }
{
    bytes::<0>(own)?;
    let summary = station::summary_of(st, card)?;
    Ok(put_summary(text, summary))
}
