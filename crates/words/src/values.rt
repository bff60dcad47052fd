// The value of a word: from its bits, to its bits, and its range.
ghost use Rattle.std.specs.Prelude.{◌≡◌, ◌&&◌, ◌+◌, ◌-◌, ◌/◌, ◌≤◌, ◌<◌, ◌^◌, length, pos, neg_ℤ, nat_abs};
ghost use Rattle.std.specs.Int.Signed.{le_z};
ghost use Rattle.strings.specs.Number.{number_of, word_of};
ghost use Rattle.words.specs.Signed.{signed_at, code_at};
ghost use Rattle.layout.specs.Layout.{Placed, layout, width};
ghost use Rattle.words.specs.Values.{carrier_of, carrier_code, value_in, code_in, is_time, in_range, values_of, first_bad};
ghost use Rattle.words.specs.Calls.{number_in};

use layout::{Form, Word, word_at};
use records::Kind;
use strings::word_in;

// The string number m.
pub fn number_in(s: &[u8]) -> u8
    requires { length s.now ≡ 11 }
    ensures { result ≡ number_in (number_of s.now) }
{
    s[0] / 8 % 16
}

// Sign and magnitude, where half is the weight of the sign.
fn signed_value(raw: u32, half: u32) -> i32
    requires { (half ≤ 2 ^ 31) × (raw < half + half) }
    ensures { result ≡ signed_at half raw }
{
    if raw < half {
        raw as i32
    } else {
        -((raw - half) as i32)
    }
}

fn signed_code(z: i32, half: u64) -> u64
    requires { half ≤ 2 ^ 32 }
    ensures { result ≡ code_at half z }
{
    if z < 0 {
        half + (-(z as i64)) as u64
    } else {
        z as u64
    }
}

// H by Table 4.10: 25 to 31 stand for -7 to -1.
fn carrier_value(raw: u32) -> i32
    requires { raw < 32 }
    ensures { result ≡ carrier_of raw }
{
    if 25 <= raw {
        -((32 - raw) as i32)
    } else {
        raw as i32
    }
}

fn carrier_code(z: i32) -> u64
    ensures { result ≡ carrier_code z }
{
    let n = signed_code(z, 0);
    if z < 0 {
        if n <= 32 { 32 - n } else { 0 }
    } else {
        n
    }
}

// What the bits of a word say.
fn value_of(w: Word, raw: u32) -> i32
    requires { Placed w × (raw < 2 ^ width w) }
    ensures { result ≡ value_in w raw }
{
    let form = w.form;
    match form {
        Form::Signed => signed_value(raw, 1 << (w.top - w.low)),
        Form::Carrier => carrier_value(raw),
        _ => raw as i32,
    }
}

// The bits of a value.
pub fn code_of(w: Word, z: i32) -> u64
    requires { Placed w }
    ensures { (result ≡ code_in w z) × (result < 2 ^ 33) }
{
    let form = w.form;
    match form {
        Form::Signed => signed_code(z, 1 << (w.top - w.low)),
        Form::Carrier => carrier_code(z),
        _ => magnitude(z),
    }
}

// The number without its sign.
pub fn magnitude(z: i32) -> u64
    ensures { (result ≡ nat_abs z) × (result < 2 ^ 32) }
{
    signed_code(z, 0)
}

// The greatest number of that many bits.
fn most_magnitude(bits: u8) -> i32
    requires { bits < 32 }
    ensures { result ≡ pos (2 ^ bits - 1) }
{
    ((1u32 << bits) - 1) as i32
}

// Hour, minute and half minute are those of a day.
fn is_time(t: u64) -> bool
    ensures { result ≡ is_time t }
{
    if t / 128 < 24 { t / 2 % 64 < 60 } else { false }
}

fn is_between(least: i32, z: i32, most: i32) -> bool
    ensures { result ≡ (le_z least z && le_z z most) }
{
    if least <= z { z <= most } else { false }
}

// Whether it is a tk: of 12 bits, and a time.
fn is_in_day(z: i32) -> bool
    ensures { result ≡ ((le_z (pos 0) z && le_z z (pos 4095)) && is_time (nat_abs z)) }
{
    if is_between(0, z, 4095) {
        is_time(magnitude(z))
    } else {
        false
    }
}

// Whether a number has at most that many bits beside its sign.
fn is_around(z: i32, bits: u8) -> bool
    requires { bits < 32 }
    ensures { result ≡ (le_z (neg_ℤ (pos (2 ^ bits - 1))) z && le_z z (pos (2 ^ bits - 1))) }
{
    let most = most_magnitude(bits);
    is_between(-most, z, most)
}

// Whether a word may have the value.
fn is_in_range(w: Word, z: i32) -> bool
    requires { Placed w }
    ensures { result ≡ in_range w z }
{
    let form = w.form;
    match form {
        Form::Plain => is_between(0, z, most_magnitude(w.top + 1 - w.low)),
        Form::Signed => is_around(z, w.top - w.low),
        Form::Time => is_in_day(z),
        Form::Interval => is_between(1, z, 95),
        Form::Day => is_between(1, z, 1461),
        Form::Slot => is_between(1, z, 24),
        Form::Carrier => is_between(-7, z, 13),
    }
}

// The values of a kind's words in a string. The place j asks the table too.
pub fn values_in(s: &[u8], k: Kind) -> [i32; 8]
    requires { length s.now ≡ 11 }
    ensures { result ≡ values_of (number_of s.now) (layout k) }
{
    let mut v = [0i32; 8];
    for (j, value) in v.iter_mut().enumerate() {
        let w = word_at(k, j);
        let raw = word_in(s, w.top, w.low);
        *value = value_of(w, raw);
    }
    v
}

// The top bit number of the first word, from the highest down, whose value is out of range; 0 where
// none is, as in `first_bad` of specs/Values.antt, of which the theorems speak.
pub fn first_bad(k: Kind, v: [i32; 8]) -> u8
    ensures { result ≡ first_bad (layout k) v }
{
    for (j, &z) in v.iter().enumerate() {
        let w = word_at(k, j);
        if !is_in_range(w, z) {
            return w.top;
        }
    }
    0
}
