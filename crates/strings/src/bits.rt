// The bits of a string where they lie in its eleven bytes.
ghost use Rattle.std.specs.Prelude.{◌≡◌, not, ◌+◌, ◌-◌, ◌/◌, ◌≤◌, ◌<◌, length};
ghost use Rattle.strings.specs.Number.{bit_of, number_of, padding_of, flip, misshapen, word_of};

use crate::numbers::wide;

// Whether the bytes have the shape of a string: eleven of them, and the padding 0.
pub fn well_shaped(s: &[u8]) -> bool
    ensures { result ≡ not (misshapen s.now) }
{
    if s.len() != 11 {
        return false;
    }
    s[10] % 8 == 0
}

// Bit i of a string, 85 the first sent and 1 the last.
pub fn bit(s: &[u8], i: u8) -> u8
    requires { (length s.now ≡ 11) × ((1 ≤ i) × (i ≤ 85)) }
    ensures { result ≡ bit_of (number_of s.now) i }
{
    let at = ((85 - i) / 8) as usize;
    (s[at] >> ((i + 2) % 8)) % 2
}

// Inverts bit i of a string where it lies.
pub fn flip_bit(s: &mut [u8], i: u8)
    requires { (length s.old ≡ 11) × ((1 ≤ i) × (i ≤ 85)) }
    ensures { (number_of s.new ≡ flip (number_of s.old) i) × (padding_of s.new ≡ padding_of s.old) }
{
    let at = ((85 - i) / 8) as usize;
    s[at] = s[at] ^ (1 << ((i + 2) % 8));
}

// The word in bits top down to low, 32 at most: what it has of its first byte, the bytes between, and
// what it has of its last. A word of no bits has its low bit in the byte of its top bit.
pub fn word_in(s: &[u8], top: u8, low: u8) -> u32
    requires s_len { length s.now ≡ 11 }
    requires le_low { ((1 ≤ low) × (low ≤ 85)) × ((low ≤ top + 1) × ((top ≤ 85) × ((top < low + 32) × ((85 - top) / 8 ≤ (85 - low) / 8)))) }
    ensures { result ≡ word_of (number_of s.now) top low }
{
    let first = ((85 - top) / 8) as usize;
    let last = ((85 - low) / 8) as usize;
    let below = (low + 2) % 8;
    let mut bits = wide(s[first]) % (2 << ((top + 2) % 8));
    if first == last {
        return bits >> below;
    }
    for byte in &s[first + 1..last] {
        bits = bits * 256 + wide(*byte);
    }
    (bits << (8 - below)) + (wide(s[last]) >> below)
}
