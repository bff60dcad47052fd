// The calls of a host in C.
ghost use Rattle.host.specs.Host.{TellsCheck, TellsWord, TellsImmediate};

use crate::reading::{float_at, is_word, no_word, read_kind};
use crate::record::{are_strings, read_four, record_numbers, record_words};
use scaled::signed_word;
use strings::Refusal;
use told::{checked_told, refusal_told};

// Checks a plain string, and writes it into eleven bytes as the check leaves it. Answers 0 with the
// verdict, in the next byte 0 clean or 1 repaired, and above that the bit that was repaired; or 12 ROOM,
// 2 SHAPE, 31 to 33 DAMAGED, 4 IDLE.
#[unsafe(no_mangle)]
pub extern "C" fn spineyarrow_check(s: &[u8], out: &mut [u8]) -> u32
    ensures { TellsCheck s.now out.old result out.new }
{
    checked_told(strings::check(s, out))
}

// Delivers one signed word of a plain string, by its number 1 to 22, as a float: the raw number times
// its unit, exactly. The string is read as the check leaves it. Answers 0; or 2 SHAPE, 31 to 33 DAMAGED,
// 4 IDLE, 5 NUMBER, 11 PLACE where the string does not have the word, 10 RANGE where a word of the
// string is out of range, with that one's top bit number in the next byte.
#[unsafe(no_mangle)]
pub extern "C" fn spineyarrow_word(s: &[u8], word: u8, value: &mut f64) -> u32
    ensures { TellsWord s.now word value.old result value.new }
{
    if !is_word(word) {
        return refusal_told(no_word(s)) as u32;
    }
    let w = signed_word(word);
    let found = read_kind(s, w.0);
    match found {
        Err(why) => refusal_told(why) as u32,
        Ok(values) => {
            *value = float_at(word, values);
            0
        }
    }
}

// Reads the immediate record from strings 1 to 4 in plain form: its 26 raw words in the order of the
// strings, and the 12 signed ones as floats, words 1 to 12. Answers 0; or 2 SHAPE where one has not
// eleven bytes, and then as for a word, string by string. Which one is refused is not told, and that
// the four share a frame is not tested.
#[unsafe(no_mangle)]
pub extern "C" fn spineyarrow_immediate(
    one: &[u8],
    two: &[u8],
    three: &[u8],
    four: &[u8],
    words: &mut [i32; 26],
    numbers: &mut [f64; 12],
) -> u32
    ensures { TellsImmediate one.now two.now three.now four.now words.old numbers.old result words.new numbers.new }
{
    if !are_strings(one, two, three, four) {
        return refusal_told(Refusal::Shape) as u32;
    }
    let read = read_four(one, two, three, four);
    match read {
        Err(why) => refusal_told(why) as u32,
        Ok(v) => {
            *words = record_words(v.one, v.two, v.three, v.four);
            *numbers = record_numbers(v.one, v.two, v.three, v.four);
            0
        }
    }
}
