// The gate: which calls are let in, by the card that asks and the channel that it names, and where.
ghost use Rattle.std.specs.Prelude.{◌≡◌};
ghost use Rattle.strings.specs.Numbers.{first_of};
ghost use Rattle.station.specs.Station.{owner_of, is_card, gate_tests, Enters};

use crate::{CARD_CHANNELS, CHANNELS};
use strings::{Refusal, refusal_number};

// The highest channel.
const LAST_CHANNEL: u8 = (CHANNELS - 1) as u8;

// The first channel of card two.
const FIRST_OF_TWO: u8 = CARD_CHANNELS as u8;

// Whether a number is a card's, one or two.
pub fn is_card(card: u8) -> bool
    ensures { result ≡ is_card card }
{
    if card == 1 {
        return true;
    }
    if card == 2 {
        return true;
    }
    false
}

// The card that a channel belongs to.
fn owner_of(channel: u8) -> u8
    ensures { result ≡ owner_of channel }
{
    if channel < FIRST_OF_TWO {
        return 1;
    }
    2
}

// Where a call on a channel enters: at the row of this index, or not, and why.
pub fn enter(card: u8, channel: u8) -> Result<usize, Refusal>
    ensures { Enters card channel result }
{
    if !is_card(card) {
        return Err(Refusal::Card);
    }
    if LAST_CHANNEL < channel {
        return Err(Refusal::Channel);
    }
    if owner_of(channel) != card {
        return Err(Refusal::Owner);
    }
    Ok(channel as usize)
}

// The same in one number, for a call from C on a lent station: 0, or the number that says no.
pub fn gate_number(card: u8, channel: u8) -> u64
    ensures { result ≡ first_of (gate_tests card channel) }
{
    let gate = enter(card, channel);
    match gate {
        Ok(_) => 0,
        Err(why) => refusal_number(why) as u64,
    }
}
