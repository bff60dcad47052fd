// The immediate record of strings 1 to 4: read string by string, its words and its floats.
ghost use Rattle.std.specs.Prelude.{◌≡◌, ◌&&◌, eqb, length};
ghost use Rattle.host.specs.Parts.{TellsFour, words_from, numbers_from};

use crate::reading::{float_at, read_kind};
use records::Kind;
use strings::Refusal;

// The values of strings 1 to 4, each as a list of its kind.
#[derive(Clone, Copy)]
pub struct FourValues {
    pub one: [i32; 8],
    pub two: [i32; 8],
    pub three: [i32; 8],
    pub four: [i32; 8],
}

// Whether each has the length of a string.
pub fn are_strings(one: &[u8], two: &[u8], three: &[u8], four: &[u8]) -> bool
    ensures { result ≡ (eqb (length one.now) 11 && (eqb (length two.now) 11 && (eqb (length three.now) 11 && eqb (length four.now) 11))) }
{
    one.len() == 11 && two.len() == 11 && three.len() == 11 && four.len() == 11
}

// Reads strings 1 to 4 one after the other, up to the first that is refused.
pub fn read_four(one: &[u8], two: &[u8], three: &[u8], four: &[u8]) -> Result<FourValues, Refusal>
    ensures { TellsFour one.now two.now three.now four.now result }
{
    let a = read_kind(one, Kind::One)?;
    let b = read_kind(two, Kind::Two)?;
    let c = read_kind(three, Kind::Three)?;
    let d = read_kind(four, Kind::Four)?;
    Ok(FourValues {
        one: a,
        two: b,
        three: c,
        four: d,
    })
}

// The 26 words in the paper's order, from the values of the four strings.
pub fn record_words(a: [i32; 8], b: [i32; 8], c: [i32; 8], d: [i32; 8]) -> [i32; 26]
    ensures { result ≡ words_from a b c d }
{
    [
        a[0], a[1], a[2], a[3], a[4], b[0], b[1], b[2], b[3], b[4], b[5], c[0], c[1], c[2], c[3],
        c[4], c[5], c[6], d[0], d[1], d[2], d[3], d[4], d[5], d[6], d[7],
    ]
}

// The 12 signed ones of them as floats: words 1 to 12 of the table.
pub fn record_numbers(a: [i32; 8], b: [i32; 8], c: [i32; 8], d: [i32; 8]) -> [f64; 12]
    ensures { result ≡ numbers_from a b c d }
{
    [
        float_at(1, a),
        float_at(2, a),
        float_at(3, a),
        float_at(4, b),
        float_at(5, b),
        float_at(6, b),
        float_at(7, c),
        float_at(8, c),
        float_at(9, c),
        float_at(10, c),
        float_at(11, d),
        float_at(12, d),
    ]
}
