// Which words stand in which string, by Table 4.1. Frames are counted from 0.
ghost use Rattle.std.specs.Prelude.{◌≡◌, false, ◌≤◌, ◌<◌, ◌%◌, eqb};
ghost use Rattle.strings.specs.Pick.{pick};
ghost use Rattle.strings.specs.Number.{bytes_of_string};
ghost use Rattle.records.specs.declared.named.Record.TheVariants.{Five, Even, Odd, Fourteen};
ghost use Rattle.superframe.specs.Sky.{with_l, zero_odd, record_in, sky_string};
ghost use Rattle.superframe.specs.Refused.{string_bad};

use crate::{AlmanacWords, Sky};
use records::{ImmediateWords, OddString, Record, String5, String14};

// The odd half with l of string 5.
fn with_l(five: String5, r: OddString) -> OddString
    ensures { result ≡ with_l five.l r }
{
    OddString {
        omega: r.omega,
        tlambda: r.tlambda,
        dt: r.dt,
        dtrate: r.dtrate,
        h: r.h,
        l: five.l,
    }
}

// An entry's half in string m: the first in an even string.
fn half_in(e: AlmanacWords, five: String5, m: usize) -> Record
    ensures { result ≡ pick (eqb (m % 2) 0) (Even e.even) (Odd (with_l five.l e.odd)) }
{
    if m % 2 == 0 {
        let even = e.even;
        return Record::Even(even);
    }
    let odd = e.odd;
    Record::Odd(with_l(five, odd))
}

// Strings 14 and 15 of the last frame, which are no pair.
fn last_in(fourteen: String14, five: String5, m: usize) -> Record
    ensures { result ≡ pick (eqb m 14) (Fourteen fourteen) (Odd (with_l five.l zero_odd)) }
{
    if m == 14 {
        return Record::Fourteen(fourteen);
    }
    let zero = OddString {
        omega: 0,
        tlambda: 0,
        dt: 0,
        dtrate: 0,
        h: 0,
        l: 0,
    };
    Record::Odd(with_l(five, zero))
}

// Strings 1 to 5, which are alike in all frames.
fn early_in(sky: Sky, m: usize) -> Record
    requires { (1 ≤ m) × (m ≤ 5) }
    ensures { result ≡ record_in sky 0 m }
{
    let w = sky.words;
    match m {
        1 => {
            let one = w.one;
            Record::One(one)
        }
        2 => {
            let two = w.two;
            Record::Two(two)
        }
        3 => {
            let three = w.three;
            Record::Three(three)
        }
        4 => {
            let four = w.four;
            Record::Four(four)
        }
        _ => {
            let five = sky.five;
            Record::Five(five)
        }
    }
}

// The words of string m of frame g. The entries end before a twenty-fifth pair.
pub fn record_in(sky: Sky, g: usize, m: usize) -> Record
    requires { (g < 5) × ((1 ≤ m) × (m ≤ 15)) }
    ensures { result ≡ record_in sky g m }
{
    if m < 6 {
        return early_in(sky, m);
    }
    let at = 5 * g + (m - 6) / 2;
    let five = sky.five;
    if 23 < at {
        let fourteen = sky.fourteen;
        return last_in(fourteen, five, m);
    }
    let e = sky.entries[at];
    half_in(e, five, m)
}

// String i, 1 to 75, encoded.
pub fn string_in(sky: Sky, i: usize) -> [u8; 11]
    requires { ((1 ≤ i) × (i ≤ 75)) × (string_bad sky i ≡ false) }
    ensures { result ≡ bytes_of_string (sky_string sky i) }
{
    let g = (i - 1) / 15;
    let m = (i - 1) % 15 + 1;
    let r = record_in(sky, g, m);
    let mut out = [0u8; 11];
    let _ = words::write_words(m as u8, r, &mut out);
    out
}
