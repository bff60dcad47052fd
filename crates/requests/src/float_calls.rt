// A signed word as a float, and the immediate record of four strings.
ghost use Rattle.std.specs.Prelude.{◌≤◌, IfOk};

use crate::answers::{Unanswered, say_ok};
use crate::line::{Text, put_digits, put_next, put_text, put_values};
use crate::payloads::{bytes, first};

// `no N`, for RANGE `no 10 PLACE`, of an answer in one number.
fn say_told_no(text: &mut Text, told: u32) -> usize
    ensures { result ≤ 512 }
{
    let no = put_text(text, 0, b"no");
    let number = put_next(text, no, (told % 256) as u64);
    if told % 256 == 10 {
        return put_next(text, number, (told / 256) as u64);
    }
    number
}

// The bits of a float. No call delivers one that is not a number.
fn bits_of(x: f64) -> u64 {
    if x == x { f64::to_bits(x) } else { 0 }
}

// They are printed in 16 digits, behind a space.
fn put_float(text: &mut Text, at: usize, x: f64) -> usize
    requires { at ≤ 512 }
    ensures { result ≤ 512 }
{
    let space = put_text(text, at, b" ");
    put_digits(text, space, bits_of(x), 16)
}

// The word, then the string.
pub(crate) fn float_call(payload: &[u8], text: &mut Text) -> Result<usize, Unanswered>
    ensures { IfOk result (λ n. n ≤ 512) }
{
    let (word, s) = first(payload)?;
    let mut value: f64 = 0.0;
    let told = host::spineyarrow_word(s, word, &mut value);
    if told != 0 {
        return Ok(say_told_no(text, told));
    }
    let ok = say_ok(text);
    Ok(put_float(text, ok, value))
}

// A length in one byte and that many bytes, and what stands behind them.
fn string_in(s: &[u8]) -> Result<(&[u8], &[u8]), Unanswered> {
    let (size, rest) = first(s)?;
    rest.split_at_checked(size as usize).ok_or(Unanswered::Bad)
}

// Four strings, and nothing behind the last.
pub(crate) fn floats_call(payload: &[u8], text: &mut Text) -> Result<usize, Unanswered>
    ensures { IfOk result (λ n. n ≤ 512) }
{
    let (one, after_one) = string_in(payload)?;
    let (two, after_two) = string_in(after_one)?;
    let (three, after_three) = string_in(after_two)?;
    let (four, after_four) = string_in(after_three)?;
    bytes::<0>(after_four)?;
    Ok(say_floats(one, two, three, four, text))
}

// `ok`, the 26 words, and the 12 floats.
fn say_floats(one: &[u8], two: &[u8], three: &[u8], four: &[u8], text: &mut Text) -> usize
    ensures { result ≤ 512 }
{
    let mut words = [0i32; 26];
    let mut numbers = [0.0f64; 12];
    let told = host::spineyarrow_immediate(one, two, three, four, &mut words, &mut numbers);
    if told != 0 {
        return say_told_no(text, told);
    }
    let ok = say_ok(text);
    let mut to = put_values(text, ok, &words);
    for number in numbers {
        to = put_float(text, to, number);
    }
    to
}
