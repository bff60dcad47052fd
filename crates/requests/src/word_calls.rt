// The reader and the encoder.
ghost use Rattle.std.specs.Prelude.{◌≤◌, IfOk};

use crate::answers::{Unanswered, say_bytes, say_ok};
use crate::line::{Text, put_next};
use crate::payloads::first;
use crate::words_taken::{record_from, words_in};
use crate::words_told::{count_of, put_record};
use records::Kind;

// The kind of a string by the number that a request names it by.
fn kind_from(number: u8) -> Result<Kind, Unanswered> {
    Ok(match number {
        1 => Kind::One,
        2 => Kind::Two,
        3 => Kind::Three,
        4 => Kind::Four,
        5 => Kind::Five,
        6 => Kind::Even,
        7 => Kind::Odd,
        8 => Kind::Fourteen,
        _ => return Err(Unanswered::Bad),
    })
}

// The kind, then the string. `ok M W1 W2 ..`, as many words as the kind has.
pub(crate) fn read_call(payload: &[u8], text: &mut Text) -> Result<usize, Unanswered>
    ensures { IfOk result (λ n. n ≤ 512) }
{
    let (number, s) = first(payload)?;
    let kind = kind_from(number)?;
    let (m, record) = words::read_words(s, kind)?;
    let ok = say_ok(text);
    let told = put_next(text, ok, m as u64);
    Ok(put_record(text, told, record))
}

// The output's length in bytes, the kind, m, and the words, four bytes each: as many as the kind has.
// `ok HEX`.
pub(crate) fn write_call(payload: &[u8], text: &mut Text) -> Result<usize, Unanswered>
    ensures { IfOk result (λ n. n ≤ 512) }
{
    let [room, number, m, list @ ..] = payload else {
        return Err(Unanswered::Bad);
    };
    let kind = kind_from(*number)?;
    if list.len() != count_of(kind) * 4 {
        return Err(Unanswered::Bad);
    }
    let record = record_from(kind, words_in(list));
    let mut space = [0u8; 255];
    let out = &mut space[..*room as usize];
    words::write_words(*m, record, out)?;
    Ok(say_bytes(text, out))
}
