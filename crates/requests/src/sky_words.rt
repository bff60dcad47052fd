// The words of a sky in bytes, four for each, as the encoder's request has them: those of strings 1 to
// 4, of string 5, B1, B2 and KP, and then for each entry those of its even half and of its odd half but l.
ghost use Rattle.std.specs.Prelude.{◌≡◌, ◌+◌, ◌≤◌, length};

use crate::words_taken::{
    even_from, odd_from, string1_from, string2_from, string3_from, string4_from, string5_from,
    string14_from, words_in,
};
use records::ImmediateWords;
use std::array;
use superframe::{AlmanacWords, Sky};

// How many bytes 322 words have.
pub(crate) const SKY_BYTES: usize = 1288;

// How many bytes the twelve words of an entry have, and where the first entry stands.
const ENTRY: usize = 48;

const FIRST_ENTRY: usize = 136;

pub(crate) fn sky_from(s: &[u8]) -> Sky
    requires { length s.now ≡ 1288 }
{
    Sky {
        words: immediate_from(s),
        five: string5_from(words_in(&s[104..124])),
        fourteen: string14_from(words_in(&s[124..136])),
        entries: entries_from(s),
    }
}

fn immediate_from(s: &[u8]) -> ImmediateWords
    requires { length s.now ≡ 1288 }
{
    ImmediateWords {
        one: string1_from(words_in(&s[0..20])),
        two: string2_from(words_in(&s[20..44])),
        three: string3_from(words_in(&s[44..72])),
        four: string4_from(words_in(&s[72..104])),
    }
}

fn entries_from(s: &[u8]) -> [AlmanacWords; 24]
    requires { length s.now ≡ 1288 }
{
    array::from_fn(|k| {
        let at = FIRST_ENTRY + k * ENTRY;
        entry_from(&s[at..at + ENTRY])
    })
}

fn entry_from(s: &[u8]) -> AlmanacWords
    requires { length s.now ≡ 48 }
{
    AlmanacWords {
        even: even_from(words_in(&s[0..28])),
        odd: odd_from(words_in(&s[28..48])),
    }
}
