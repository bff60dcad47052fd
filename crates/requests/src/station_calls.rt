// The calls that change the station. A payload of no such length leaves it as it was.
ghost use Rattle.std.specs.Prelude.{◌≤◌, IfOk};

use crate::answers::{Unanswered, say_ok};
use crate::line::Text;
use crate::payloads::bytes;
use crate::station_answers::{say_emptied, say_offered};
use fields::{channel_in, epoch_in};
use station::Station;

// The channel, the epoch in four bytes, then the string.
pub(crate) fn offer_call(
    card: u8,
    own: &[u8],
    st: &mut Station,
    text: &mut Text,
) -> Result<usize, Unanswered>
    ensures { IfOk result (λ n. n ≤ 512) }
{
    if own.len() < 5 {
        return Err(Unanswered::Bad);
    }
    let stepped = station::offer(*st, card, channel_in(own), epoch_in(own), &own[5..]);
    *st = stepped.station;
    let answer = stepped.answer;
    Ok(say_offered(text, answer))
}

// The channel.
pub(crate) fn reset_call(
    card: u8,
    own: &[u8],
    st: &mut Station,
    text: &mut Text,
) -> Result<usize, Unanswered>
    ensures { IfOk result (λ n. n ≤ 512) }
{
    let [channel] = bytes::<1>(own)?;
    let emptied = station::reset(*st, card, channel);
    *st = emptied.station;
    let answer = emptied.answer;
    Ok(say_emptied(text, answer))
}

// No payload.
pub(crate) fn fresh_call(own: &[u8], st: &mut Station, text: &mut Text) -> Result<usize, Unanswered>
    ensures { IfOk result (λ n. n ≤ 512) }
{
    bytes::<0>(own)?;
    *st = station::fresh();
    Ok(say_ok(text))
}
