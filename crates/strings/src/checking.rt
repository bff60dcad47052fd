// The public check of a string.
ghost use Rattle.std.specs.Prelude.{◌≡◌, false, length};
ghost use Rattle.strings.specs.Number.{bit_of, number_of, padding_of, misshapen};
ghost use Rattle.strings.specs.Hamming.{ruling, mended_by, NamesBit};
ghost use Rattle.strings.specs.Calls.{Checks};

use crate::bits::{bit, flip_bit, well_shaped};
use crate::hamming::examine;
use crate::{Refusal, Verdict};

// Checks a plain string, and writes it as the check leaves it: as it came, or with one bit
// repaired.
pub fn check(s: &[u8], out: &mut [u8]) -> Result<Verdict, Refusal>
    ensures { Checks s.now out.old result out.new }
{
    if out.len() != 11 {
        return Err(Refusal::Room);
    }
    if !well_shaped(s) {
        return Err(Refusal::Shape);
    }
    let v = examine(s)?;
    take(s, v, out)
}

// The rest of the check, for a string that is not damaged: IDLE, or the string as the verdict leaves
// it.
fn take(s: &[u8], v: Verdict, out: &mut [u8]) -> Result<Verdict, Refusal>
    requires { (length out.old ≡ 11) × ((misshapen s.now ≡ false) × (ruling (number_of s.now) ≡ Ok v)) }
    ensures { Checks s.now out.old result out.new }
{
    if idle_after(s, v) == 1 {
        return Err(Refusal::Idle);
    }
    out.copy_from_slice(s);
    mend(out, v);
    Ok(v)
}

// The idle bit, bit 85, as the verdict leaves it.
fn idle_after(s: &[u8], v: Verdict) -> u8
    requires { (length s.now ≡ 11) × NamesBit v }
    ensures { result ≡ bit_of (mended_by (Ok v) (number_of s.now)) 85 }
{
    let b = bit(s, 85);
    match v {
        Verdict::Clean => b,
        Verdict::Repaired(i) => if i == 85 { 1 - b } else { b },
    }
}

// Makes the repair that a verdict names.
fn mend(s: &mut [u8], v: Verdict)
    requires { (length s.old ≡ 11) × NamesBit v }
    ensures { (number_of s.new ≡ mended_by (Ok v) (number_of s.old)) × (padding_of s.new ≡ padding_of s.old) }
{
    match v {
        Verdict::Clean => {}
        Verdict::Repaired(i) => flip_bit(s, i),
    }
}
