// The check of a string (ICD 4.7): the position rule, the sums, what they say, and the check bits.
ghost use Rattle.std.specs.Prelude.{◌≡◌, ℕ, ◌+◌, ◌-◌, ◌*◌, ◌%◌, ◌^◌, ◌≤◌, ◌<◌, length};
ghost use Rattle.std.specs.Int.Bits.{bit_xor};
ghost use Rattle.strings.specs.Number.{number_of, padding_of, bytes_of_string};
ghost use Rattle.strings.specs.Hamming.{position, syndrome, sum_all, highest, placed, judge, ruling, encode};

use crate::Verdict;
use crate::bits::{flip_bit, word_in};

// Why a string is damaged: no sum but C is set; sums are set but C is not, as an even number of
// wrong bits leaves them; the sums name a place above 85.
#[derive(Clone, Copy)]
pub enum Damage {
    Unplaced,
    Even,
    Outside,
}

// C7..C1 read as the number S, and C.
#[derive(Clone, Copy)]
struct Sums {
    s: u8,
    c: u8,
}

// A bit that is 1 turns C and each C_k whose weight its position has. C stands beside S in the sums, at
// the weight 128: no position has it.
fn add_bit(sums: u32, bit: u32, at: u32) -> u32
    requires { at < 128 }
    ensures { result ≡ bit_xor sums (bit % 2 * (128 + at)) }
{
    sums ^ (bit % 2 * (128 + at))
}

// Adds a run of the position rule, bits low to top: bit i has i - less. Before it the sums are those of
// the bits below low alone, after it those of the bits up to top.
fn add_run(sums: u32, s: &[u8], low: u8, top: u8, less: u8) -> u32
    requires s_len { length s.now ≡ 11 }
    requires le_low { ((1 ≤ low) × (low ≤ top)) × ((top ≤ 85) × ((top < low + 32) × (less ≤ low))) }
    requires by_index { (i : ℕ) → low ≤ i → i ≤ top → position i ≡ i - less }
    requires sums_value { sums ≡ sum_all (number_of s.now % 2 ^ (low - 1)) * 128 + syndrome (number_of s.now % 2 ^ (low - 1)) }
    ensures { result ≡ sum_all (number_of s.now % 2 ^ top) * 128 + syndrome (number_of s.now % 2 ^ top) }
{
    let mut t = sums;
    let mut bits = word_in(s, top, low);
    for i in low as u32..top as u32 + 1 {
        t = add_bit(t, bits, i - less as u32);
        bits = bits / 2;
    }
    t
}

// The sums of Table 4.13 by the position rule: check bit k, 1 to 7, has 2^(k-1), bit 8 has 0, bit 9 has
// 3, and then the five runs.
fn add_up(s: &[u8]) -> Sums
    requires { length s.now ≡ 11 }
    ensures { (result.s ≡ syndrome (number_of s.now)) × (result.c ≡ sum_all (number_of s.now)) }
{
    let low = word_in(s, 9, 1);
    let mut t: u32 = 0;
    for k in 1u32..8 {
        t = add_bit(t, low >> (k - 1), 1 << (k - 1));
    }
    t = add_bit(t, low >> 7, 0);
    t = add_bit(t, low >> 8, 3);
    t = add_run(t, s, 10, 12, 5);
    t = add_run(t, s, 13, 19, 4);
    t = add_run(t, s, 20, 34, 3);
    t = add_run(t, s, 35, 65, 2);
    t = add_run(t, s, 66, 85, 1);
    Sums {
        s: (t % 128) as u8,
        c: (t / 128) as u8,
    }
}

// K: the highest set sum, of an S that is not 0.
fn highest_of(s: u8) -> u8
    requires { (1 ≤ s) × (s < 128) }
    ensures { result ≡ highest s }
{
    if 64 <= s {
        7
    } else if 32 <= s {
        6
    } else if 16 <= s {
        5
    } else if 8 <= s {
        4
    } else if 4 <= s {
        3
    } else if 2 <= s {
        2
    } else {
        1
    }
}

// A repair at bit i, where there is such a bit.
fn place(i: u8) -> Result<Verdict, Damage>
    ensures { result ≡ placed i }
{
    if i <= 85 {
        Ok(Verdict::Repaired(i))
    } else {
        Err(Damage::Outside)
    }
}

// What the sums say: the paper's cases, in its order.
fn judge_sums(s: u8, c: u8) -> Result<Verdict, Damage>
    requires { (s < 128) × (c < 2) }
    ensures { result ≡ judge s c }
{
    if c == 0 {
        if s == 0 {
            return Ok(Verdict::Clean);
        }
        return Err(Damage::Even);
    }
    if s == 0 {
        return Err(Damage::Unplaced);
    }
    let k = highest_of(s);
    if s == 1 << (k - 1) {
        return Ok(Verdict::Repaired(k));
    }
    place(s + 8 - k)
}

// The ruling on a string.
pub fn examine(s: &[u8]) -> Result<Verdict, Damage>
    requires { length s.now ≡ 11 }
    ensures { result ≡ ruling (number_of s.now) }
{
    let t = add_up(s);
    judge_sums(t.s, t.c)
}

// Makes the check bits of a string: each check bit is turned where its sum is 1, then bit 8 where
// the sum of all bits is.
pub fn make_check_bits(s: &mut [u8])
    requires { (length s.old ≡ 11) × (padding_of s.old ≡ 0) }
    ensures { s.new ≡ bytes_of_string (encode (number_of s.old)) }
{
    let t = add_up(s);
    let mut all = t.c;
    for k in 1..8 {
        if (t.s >> (k - 1)) % 2 == 1 {
            flip_bit(s, k);
            all = 1 - all;
        }
    }
    if all == 1 {
        flip_bit(s, 8);
    }
}
