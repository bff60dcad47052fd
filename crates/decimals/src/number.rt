// A number of nineteen characters: a sign or a blank, one digit, a point, twelve digits, and D with a sign and two digits.
ghost use Rattle.std.specs.Prelude.{◌≡◌, cond, ◌+◌, ◌-◌, ◌≤◌, leb, nat_abs, neg_ℤ, length};
ghost use Rattle.decimals.specs.Decimal.{text_of, signed_of, decimal_of};

use crate::digits::put_digits;
use crate::rounding::thirteen;

// raw / 2 ^ p into the whole of out.
pub fn put_decimal(out: &mut [u8], raw: i32, p: u32)
    requires out_len { length out.old ≡ 19 }
    requires p_bound { p ≤ 44 }
    ensures { out.new ≡ decimal_of raw p }
{
    put_signed(out, raw < 0, magnitude(raw), p);
}

// -raw / 2 ^ p into the whole of out, also where an i32 does not hold -raw: so the other function cannot be
// handed it.
pub fn put_negated(out: &mut [u8], raw: i32, p: u32)
    requires out_len { length out.old ≡ 19 }
    requires p_bound { p ≤ 44 }
    ensures { out.new ≡ decimal_of (neg_ℤ raw) p }
{
    put_signed(out, 0 < raw, magnitude(raw), p);
}

// size / 2 ^ p with a sign. Zero has no minus.
fn put_signed(out: &mut [u8], neg: bool, size: u32, p: u32)
    requires out_len { length out.old ≡ 19 }
    requires p_bound { p ≤ 44 }
    ensures { out.new ≡ signed_of neg size p }
{
    if size == 0 {
        put_text(out, false, 0, 12);
    } else {
        let x = thirteen(size, p);
        put_text(out, neg, x.figures, x.place);
    }
}

fn magnitude(raw: i32) -> u32
    ensures { result ≡ nat_abs raw }
{
    if raw < 0 {
        (0 - raw as i64) as u32
    } else {
        raw as u32
    }
}

// The characters of n figures at the place k.
fn put_text(out: &mut [u8], neg: bool, n: u64, k: u32)
    requires { length out.old ≡ 19 }
    ensures { out.new ≡ text_of neg n k }
{
    out[0] = sign(neg);
    put_digits(&mut out[1..2], n / 1000000000000);
    out[2] = b'.';
    put_digits(&mut out[3..15], n);
    out[15] = b'D';
    out[16] = exponent_sign(k);
    put_digits(&mut out[17..19], exponent_size(k));
}

fn sign(neg: bool) -> u8
    ensures { result ≡ cond neg 45 32 }
{
    if neg { b'-' } else { b' ' }
}

fn exponent_sign(k: u32) -> u8
    ensures { result ≡ cond (leb k 12) 43 45 }
{
    if k <= 12 { b'+' } else { b'-' }
}

fn exponent_size(k: u32) -> u64
    ensures { result ≡ 12 - k + (k - 12) }
{
    if k <= 12 {
        (12 - k) as u64
    } else {
        (k - 12) as u64
    }
}
