// The words of the eight kinds (ICD Tables 4.6 and 4.11).
ghost use Rattle.std.specs.Prelude.{◌≡◌, ◌<◌, get_or};
ghost use Rattle.records.specs.declared.kinds.Kind.TheVariants.{One, Two, Three, Four, Five, Even, Odd, Fourteen};
ghost use Rattle.layout.specs.declared.table.Form.TheVariants.{Plain, Signed};
ghost use Rattle.layout.specs.Layout.{Placed, word, layout, none};

use records::Kind;

// How a word's bits are read, and which values it may have.
#[derive(Clone, Copy)]
pub enum Form {
    Plain, // a plain number
    Signed, // sign and magnitude
    Time, // tk
    Interval, // tb
    Day, // NA
    Slot, // nA
    Carrier, // H
}

// A word: its form, its top bit and its low bit.
#[derive(Clone, Copy)]
pub struct Word {
    pub form: Form,
    pub top: u8,
    pub low: u8,
}

fn word_of(form: Form, top: u8, low: u8) -> Word
    ensures { result ≡ word form top low }
{
    Word { form, top, low }
}

fn plain(top: u8, low: u8) -> Word
    ensures { result ≡ word Plain top low }
{
    word_of(Form::Plain, top, low)
}

fn signed(top: u8, low: u8) -> Word
    ensures { result ≡ word Signed top low }
{
    word_of(Form::Signed, top, low)
}

// What stands at a place that a kind does not fill: a word of no bits.
fn no_word() -> Word
    ensures { result ≡ none }
{
    plain(8, 9)
}

// The word at place j of a kind.
pub fn word_at(k: Kind, j: usize) -> Word
    requires { j < 8 }
    ensures { (result ≡ get_or (layout k) j none) × Placed result }
{
    match k {
        Kind::One => string_1(j),
        Kind::Two => string_2(j),
        Kind::Three => string_3(j),
        Kind::Four => string_4(j),
        Kind::Five => string_5(j),
        Kind::Even => even_string(j),
        Kind::Odd => odd_string(j),
        Kind::Fourteen => string_14(j),
    }
}

// A match a kind, and no table of constants: that is laid on the stack at each use, some hundred instructions and 196
// bytes more for each word on the card's core.

// String 1.
fn string_1(j: usize) -> Word
    ensures { result ≡ get_or (layout One) j none }
{
    match j {
        0 => plain(78, 77), // P1
        1 => word_of(Form::Time, 76, 65), // tk
        2 => signed(64, 41), // x velocity
        3 => signed(40, 36), // x acceleration
        4 => signed(35, 9), // x
        _ => no_word(),
    }
}

// String 2.
fn string_2(j: usize) -> Word
    ensures { result ≡ get_or (layout Two) j none }
{
    match j {
        0 => plain(80, 78), // B
        1 => plain(77, 77), // P2
        2 => word_of(Form::Interval, 76, 70), // tb
        3 => signed(64, 41), // y velocity
        4 => signed(40, 36), // y acceleration
        5 => signed(35, 9), // y
        _ => no_word(),
    }
}

// String 3.
fn string_3(j: usize) -> Word
    ensures { result ≡ get_or (layout Three) j none }
{
    match j {
        0 => plain(80, 80), // P3
        1 => signed(79, 69), // gamma
        2 => plain(67, 66), // P
        3 => plain(65, 65), // l
        4 => signed(64, 41), // z velocity
        5 => signed(40, 36), // z acceleration
        6 => signed(35, 9), // z
        _ => no_word(),
    }
}

// String 4.
fn string_4(j: usize) -> Word
    ensures { result ≡ get_or (layout Four) j none }
{
    match j {
        0 => signed(80, 59), // tau
        1 => signed(58, 54), // delta tau
        2 => plain(53, 49), // E
        3 => plain(34, 34), // P4
        4 => plain(33, 30), // FT
        5 => plain(26, 16), // NT
        6 => plain(15, 11), // n
        7 => plain(10, 9), // M
        _ => no_word(),
    }
}

// String 5.
fn string_5(j: usize) -> Word
    ensures { result ≡ get_or (layout Five) j none }
{
    match j {
        0 => word_of(Form::Day, 80, 70), // NA
        1 => signed(69, 38), // tau c
        2 => plain(36, 32), // N4
        3 => signed(31, 10), // tau GPS
        4 => plain(9, 9), // l
        _ => no_word(),
    }
}

// Even 6..14.
fn even_string(j: usize) -> Word
    ensures { result ≡ get_or (layout Even) j none }
{
    match j {
        0 => plain(80, 80), // C
        1 => plain(79, 78), // MA
        2 => word_of(Form::Slot, 77, 73), // nA
        3 => signed(72, 63), // tau A
        4 => signed(62, 42), // lambda
        5 => signed(41, 24), // delta i
        6 => plain(23, 9), // epsilon
        _ => no_word(),
    }
}

// Odd 7..15.
fn odd_string(j: usize) -> Word
    ensures { result ≡ get_or (layout Odd) j none }
{
    match j {
        0 => signed(80, 65), // omega
        1 => plain(64, 44), // t lambda
        2 => signed(43, 22), // delta T
        3 => signed(21, 15), // its rate
        4 => word_of(Form::Carrier, 14, 10), // H
        5 => plain(9, 9), // l
        _ => no_word(),
    }
}

// Frame 5, string 14.
fn string_14(j: usize) -> Word
    ensures { result ≡ get_or (layout Fourteen) j none }
{
    match j {
        0 => signed(80, 70), // B1
        1 => signed(69, 60), // B2
        2 => plain(59, 58), // KP
        _ => no_word(),
    }
}
