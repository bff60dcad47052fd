// To and from the relative code, and the check: the output's length in one byte, then the string.
ghost use Rattle.std.specs.Prelude.{◌≤◌, IfOk};

use crate::answers::{Unanswered, bit_of, say_bytes, say_ok};
use crate::line::{Text, put_hex, put_next, put_text};
use crate::payloads::first;
use relative::polarity_number;

// `ok HEX P`, P 0 where the symbols came upright and 1 where inverted.
pub(crate) fn from_relative_call(payload: &[u8], text: &mut Text) -> Result<usize, Unanswered>
    ensures { IfOk result (λ n. n ≤ 512) }
{
    let (room, s) = first(payload)?;
    let mut space = [0u8; 255];
    let out = &mut space[..room as usize];
    let polarity = relative::from_relative(s, out)?;
    let hex = say_bytes(text, out);
    Ok(put_next(text, hex, polarity_number(polarity) as u64))
}

// `ok HEX`.
pub(crate) fn to_relative_call(payload: &[u8], text: &mut Text) -> Result<usize, Unanswered>
    ensures { IfOk result (λ n. n ≤ 512) }
{
    let (room, s) = first(payload)?;
    let mut space = [0u8; 255];
    let out = &mut space[..room as usize];
    relative::to_relative(s, out)?;
    Ok(say_bytes(text, out))
}

// `ok BIT HEX`, BIT 0 where the string was clean.
pub(crate) fn check_call(payload: &[u8], text: &mut Text) -> Result<usize, Unanswered>
    ensures { IfOk result (λ n. n ≤ 512) }
{
    let (room, s) = first(payload)?;
    let mut space = [0u8; 255];
    let out = &mut space[..room as usize];
    let verdict = strings::check(s, out)?;
    let ok = say_ok(text);
    let bit = put_next(text, ok, bit_of(verdict) as u64);
    let hex = put_text(text, bit, b" ");
    Ok(put_hex(text, hex, out))
}
