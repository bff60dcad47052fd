// Two queries beside the station's own, for a navigation record: the words of string 5 of the frame that a
// record was read from, and the carrier number of an entry.
#![tactic(auto)]

ghost use Rattle.std.specs.Prelude.{◌≡◌};
ghost use Rattle.navigation_queries.specs.Five.{has_five, five_of, FindsFive};
ghost use Rattle.navigation_queries.specs.Carrier.{FindsCarrier};
ghost use Rattle.channel.specs.Row.{string_in};

use book::odd_words;
use channel::{Row, has_string};
use immediate::has_record;
use records::{Kind, String5, string5_of};
use station::{Station, enter, entry_of};
use strings::Refusal;
use words::values_in;

// The words of string 5 of the frame that a channel's record was read from, while the channel still holds
// that frame.
pub fn five_of(st: Station, card: u8, channel: u8) -> Result<String5, Refusal>
    ensures { FindsFive st card channel result }
{
    let row = st.rows[enter(card, channel)?];
    if has_five(row) {
        Ok(five_words(row.strings))
    } else {
        Err(Refusal::Nothing)
    }
}

// Whether a row has a record, still holds its frame, and has string 5 of it.
pub fn has_five(row: Row) -> bool
    ensures { result ≡ has_five row }
{
    let kept = row.immediate;
    if !has_record(kept) {
        return false;
    }
    if kept.start != row.start {
        return false;
    }
    has_string(row.present, 5)
}

// The words of string 5 among fifteen, whatever its bytes are.
pub fn five_words(all: [u8; 165]) -> String5
    ensures { result ≡ five_of (string_in all 5) }
{
    string5_of(values_in(&all[44..55], Kind::Five))
}

// The carrier number of the entry of a slot.
pub fn carrier_of(st: Station, card: u8, slot: u8) -> Result<i32, Refusal>
    ensures { FindsCarrier st card slot result }
{
    let e = entry_of(st, card, slot)?;
    Ok(odd_words(e).h)
}
