// Reading a string from its symbols, and writing it as its symbols.
ghost use Rattle.std.specs.Prelude.{◌≡◌, false, length};
ghost use Rattle.strings.specs.Number.{number_of, misshapen, bytes_of_string};
ghost use Rattle.relative.specs.Relative.{read_relative, write_relative};
ghost use Rattle.relative.specs.Polarity.{polarity_of, polarity_number};
ghost use Rattle.relative.specs.Calls.{ReadsRelative, WritesRelative};

use crate::Polarity;
use strings::{Refusal, bit, flip_bit, well_shaped, wide};

// Reads a string from its symbols, and writes it plain. The answer tells which way up they came.
pub fn from_relative(s: &[u8], out: &mut [u8]) -> Result<Polarity, Refusal>
    ensures { ReadsRelative s.now out.old result out.new }
{
    if out.len() != 11 {
        return Err(Refusal::Room);
    }
    if !well_shaped(s) {
        return Err(Refusal::Shape);
    }
    read_symbols(s, out);
    Ok(polarity_in(s))
}

// Only the first symbol, the one in the place of bit 85, shows the polarity: bit 85 itself is 0.
pub fn polarity_in(s: &[u8]) -> Polarity
    requires { length s.now ≡ 11 }
    ensures { result ≡ polarity_of (number_of s.now) }
{
    if bit(s, 85) == 0 {
        Polarity::Upright
    } else {
        Polarity::Inverted
    }
}

// A polarity in one number.
pub fn polarity_number(p: Polarity) -> u8
    ensures { result ≡ polarity_number p }
{
    match p {
        Polarity::Upright => 0,
        Polarity::Inverted => 1,
    }
}

// Writes a plain string as its symbols. Its idle bit must be 0.
pub fn to_relative(s: &[u8], out: &mut [u8]) -> Result<(), Refusal>
    ensures { WritesRelative s.now out.old result out.new }
{
    if out.len() != 11 {
        return Err(Refusal::Room);
    }
    if !well_shaped(s) {
        return Err(Refusal::Shape);
    }
    if bit(s, 85) == 1 {
        return Err(Refusal::Idle);
    }
    out.copy_from_slice(s);
    send_symbols(out);
    Ok(())
}

// Each bit is its symbol added to the symbol before, eight at a time: `before` is the byte sent
// before, of which the last symbol counts. Bit 85 is read as 0 because its own symbol is put before
// it.
fn read_symbols(s: &[u8], out: &mut [u8])
    requires { (misshapen s.now ≡ false) × (length out.old ≡ 11) }
    ensures { out.new ≡ bytes_of_string (read_relative (number_of s.now)) }
{
    let mut before = s[0] / 128;
    for (k, &here) in s.iter().enumerate() {
        let both = wide(before) * 256 + wide(here);
        out[k] = ((both ^ (both / 2)) % 256) as u8;
        before = here;
    }
    // The last symbol has left its mark on the padding.
    out[10] = out[10] / 8 * 8;
}

// From bit 84 down, each bit is inverted where the symbol before it is 1: what stands above the bit
// is sent already. Before bit 85 stands 0, so bit 85 is its own symbol.
fn send_symbols(s: &mut [u8])
    requires { misshapen s.old ≡ false }
    ensures { s.new ≡ bytes_of_string (write_relative (number_of s.old)) }
{
    for i in (1..85).rev() {
        if bit(s, i + 1) == 1 {
            flip_bit(s, i);
        }
    }
}
