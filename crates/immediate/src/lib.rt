// The immediate record: strings 1 to 4 of a frame, all in range.
#![tactic(auto)]

ghost use Rattle.std.specs.Prelude.{◌≡◌, ◌≤◌, length};
ghost use Rattle.strings.specs.Number.{number_of};
ghost use Rattle.records.specs.declared.kinds.Kind.TheVariants.{One, Two};
ghost use Rattle.words.specs.Good.{is_good};
ghost use Rattle.immediate.specs.Kept.{are_good, has_record, built_from};

use words::word_in;

// The strings 1 to 4 that the latest immediate record was read from, and the start of their frame.
// Where their words are not in range, as in a reset row's zeros, there is no record.
#[repr(C)]
#[derive(Clone, Copy)]
pub struct Immediate {
    pub strings: [u8; 44],
    pub start: u32,
}

// Whether there is a record: its four strings are in range.
pub fn has_record(i: Immediate) -> bool
    ensures { result ≡ has_record i }
{
    let four = i.strings;
    are_good(&four)
}

// Whether the first four strings are in range.
pub fn are_good(strings: &[u8]) -> bool
    requires { 44 ≤ length strings.now }
    ensures { result ≡ are_good strings.now }
{
    if has_time(&strings[0..11]) {
        has_interval(&strings[11..22])
    } else {
        false
    }
}

// String 1: tk is the one word that can be out of range, by its hour or its minute.
fn has_time(one: &[u8]) -> bool
    requires { length one.now ≡ 11 }
    ensures { result ≡ is_good One (number_of one.now) }
{
    let tk = word_in(one, 76, 65);
    if tk / 128 < 24 {
        tk / 2 % 64 < 60
    } else {
        false
    }
}

// String 2: tb 1 to 95 is the one word that can be out of range.
fn has_interval(two: &[u8]) -> bool
    requires { length two.now ≡ 11 }
    ensures { result ≡ is_good Two (number_of two.now) }
{
    let tb = word_in(two, 76, 70);
    if tb == 0 {
        return false;
    }
    tb <= 95
}

// The record that the first four of fifteen strings of a frame become.
pub fn first_four(all: [u8; 165], start: u32) -> Immediate
    ensures { result ≡ built_from start all }
{
    let mut four = [0u8; 44];
    four.copy_from_slice(&all[0..44]);
    Immediate {
        strings: four,
        start,
    }
}
