// What a record is written from, asked of the station: its queries' own numbers, then 13.
ghost use Rattle.std.specs.Prelude.{◌≡◌};
ghost use Rattle.navigation.specs.Gathers.{Gathers};

use navigation_queries::{carrier_of, five_of};
use records::ImmediateWords;
use station::{Station, immediate_of};
use strings::Refusal;

// The words of strings 1 to 4 of a channel's record, N4 of string 5 of its frame, and the carrier number of its
// satellite's entry. A satellite number that is no slot has no entry.
pub fn gather(st: Station, card: u8, channel: u8) -> Result<(ImmediateWords, i32, i32), Refusal>
    ensures { Gathers st card channel result }
{
    let (words, _) = immediate_of(st, card, channel)?;
    let string5 = five_of(st, card, channel)?;
    let carrier = carrier_of(st, card, words.four.n as u8);
    match carrier {
        Err(_) => Err(Refusal::Nothing),
        Ok(h) => Ok((words, string5.n4, h)),
    }
}
