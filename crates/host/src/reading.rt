// A string read for a host: the values of its words, or why not; one of them as a float.
ghost use Rattle.std.specs.Prelude.{◌≡◌, [], ◌≤◌};
ghost use Rattle.strings.specs.Number.{number_of};
ghost use Rattle.strings.specs.Numbers.{answer_of, refusal_paper};
ghost use Rattle.strings.specs.Hamming.{mended};
ghost use Rattle.records.specs.Records.{at};
ghost use Rattle.words.specs.Calls.{read_tests};
ghost use Rattle.scaled.specs.Scaled.{scaled_of};
ghost use Rattle.scaled.specs.Units.{place_at, unit_at};
ghost use Rattle.host.specs.Host.{is_word, no_word_tests};
ghost use Rattle.host.specs.Parts.{TellsValues};

use records::{Kind, list_of};
use scaled::{scaled, signed_word};
use strings::Refusal;
use words::number_in;

// Reads the words of a kind from a plain string, as the check leaves it.
pub fn read_kind(s: &[u8], k: Kind) -> Result<[i32; 8], Refusal>
    ensures { TellsValues (read_tests s.now k) (mended (number_of s.now)) k result }
{
    let (_, record) = words::read_words(s, k)?;
    Ok(list_of(record))
}

// Whether a word has this number.
pub fn is_word(number: u8) -> bool
    ensures { result ≡ is_word number }
{
    1 <= number && number <= 22
}

// Why a string does not have a word that no string has: the check's refusals, NUMBER where m is 0,
// and else PLACE.
pub fn no_word(s: &[u8]) -> Refusal
    ensures { refusal_paper result ≡ answer_of (no_word_tests s.now) [] }
{
    let mut whole = [0u8; 11];
    match strings::check(s, &mut whole) {
        Err(why) => why,
        Ok(_) if number_in(&whole) == 0 => Refusal::Number,
        Ok(_) => Refusal::Place,
    }
}

// The word of a number, 1 to 22, as a float, from the values of its kind.
pub fn float_at(number: u8, v: [i32; 8]) -> f64
    requires { (1 ≤ number) × (number ≤ 22) }
    ensures { result ≡ scaled_of (at v (place_at number)) (unit_at number) }
{
    let w = signed_word(number);
    let j = w.1;
    scaled(v[j], w.2)
}
