// A navigation record, and the two queries that it is written from. Each names its card.
ghost use Rattle.std.specs.Prelude.{◌≤◌, IfOk};

use crate::answers::{Unanswered, say_ok};
use crate::line::{Text, put_next, put_signed, put_text};
use crate::payloads::{bytes, pair};
use crate::words_told::put_record;
use navigation::{Unwritten, answer_number, write_record};
use records::Record;
use station::Station;

// The greatest room that a request can ask for.
const MOST: usize = 1024;

// The card, the channel, and in two bytes the room of the output.
pub(crate) fn navigation_call(
    payload: &[u8],
    st: Station,
    text: &mut Text,
) -> Result<usize, Unanswered>
    ensures { IfOk result (λ n. n ≤ 512) }
{
    let [card, channel, high, low] = bytes::<4>(payload)?;
    let room = pair(high, low);
    if room > MOST {
        return Err(Unanswered::Bad);
    }
    let mut out = [0u8; MOST];
    say_record(text, st, card, channel, &mut out[..room])
}

// The card and the channel. `ok NA TAUC N4 TAUGPS L`.
pub(crate) fn five_call(payload: &[u8], st: Station, text: &mut Text) -> Result<usize, Unanswered>
    ensures { IfOk result (λ n. n ≤ 512) }
{
    let [card, channel] = bytes::<2>(payload)?;
    let five = navigation_queries::five_of(st, card, channel)?;
    let ok = say_ok(text);
    Ok(put_record(text, ok, Record::Five(five)))
}

// The card and the slot. `ok H`.
pub(crate) fn carrier_call(
    payload: &[u8],
    st: Station,
    text: &mut Text,
) -> Result<usize, Unanswered>
    ensures { IfOk result (λ n. n ≤ 512) }
{
    let [card, slot] = bytes::<2>(payload)?;
    let carrier = navigation_queries::carrier_of(st, card, slot)?;
    let ok = put_text(text, 0, b"ok ");
    Ok(put_signed(text, ok, carrier))
}

fn say_record(
    text: &mut Text,
    st: Station,
    card: u8,
    channel: u8,
    out: &mut [u8],
) -> Result<usize, Unanswered>
    ensures { IfOk result (λ n. n ≤ 512) }
{
    let answer = write_record(st, card, channel, out);
    match answer {
        Ok(_) => say_lines(text, out),
        Err(Unwritten::Refused(r)) => Err(Unanswered::Refused(r)),
        Err(Unwritten::Lines) => {
            let no = put_text(text, 0, b"no");
            Ok(put_next(text, no, answer_number(answer) as u64))
        }
    }
}

// `ok` and the four lines, joined by `|`: a line feed stands at every eightieth place. What is written has
// four lines.
fn say_lines(text: &mut Text, out: &[u8]) -> Result<usize, Unanswered>
    ensures { IfOk result (λ n. n ≤ 512) }
{
    if out.len() != 320 {
        return Err(Unanswered::Bad);
    }
    let ok = put_text(text, 0, b"ok ");
    let one = put_text(text, ok, &out[0..79]);
    let two = put_joined(text, one, &out[80..159]);
    let three = put_joined(text, two, &out[160..239]);
    Ok(put_joined(text, three, &out[240..319]))
}

fn put_joined(text: &mut Text, at: usize, line: &[u8]) -> usize
    requires { at ≤ 512 }
    ensures { result ≤ 512 }
{
    let from = put_text(text, at, b"|");
    put_text(text, from, line)
}
