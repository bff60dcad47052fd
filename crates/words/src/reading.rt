// The reader.
ghost use Rattle.std.specs.Prelude.{◌≡◌, length};
ghost use Rattle.strings.specs.Number.{number_of};
ghost use Rattle.words.specs.Calls.{Reads, ReadsBy, word_tests};
ghost use Rattle.words.specs.Immediate.{immediate_of};

use crate::values::{first_bad, number_in, values_in};
use layout::is_of_kind;
use records::{
    ImmediateWords, Kind, Record, record_of, string1_of, string2_of, string3_of, string4_of,
};
use strings::Refusal;

// Checks a plain string, and reads the words of the kind asked from the string as the check leaves
// it: m and the words, or why not.
pub fn read_words(s: &[u8], k: Kind) -> Result<(u8, Record), Refusal>
    ensures { Reads s.now k result }
{
    let mut whole = [0u8; 11];
    strings::check(s, &mut whole)?;
    read_whole(&whole, k)
}

// The reader past the check.
fn read_whole(s: &[u8], k: Kind) -> Result<(u8, Record), Refusal>
    requires { length s.now ≡ 11 }
    ensures { ReadsBy (word_tests (number_of s.now) k) (number_of s.now) k result }
{
    let m = number_in(s);
    if m == 0 {
        return Err(Refusal::Number);
    }
    if !is_of_kind(k, m) {
        return Err(Refusal::Place);
    }
    let v = values_in(s, k);
    let place = first_bad(k, v);
    if place != 0 {
        return Err(Refusal::Range(place));
    }
    Ok((m, record_of(k, v)))
}

// The words of strings 1 to 4 that stand one after the other in 44 bytes, whatever they are.
pub fn immediate_words(s: [u8; 44]) -> ImmediateWords
    ensures { result ≡ immediate_of s }
{
    ImmediateWords {
        one: string1_of(values_in(&s[0..11], Kind::One)),
        two: string2_of(values_in(&s[11..22], Kind::Two)),
        three: string3_of(values_in(&s[22..33], Kind::Three)),
        four: string4_of(values_in(&s[33..44], Kind::Four)),
    }
}
