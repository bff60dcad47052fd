// Digits as characters.
ghost use Rattle.std.specs.Prelude.{◌≡◌, length};
ghost use Rattle.decimals.specs.Decimal.{digits_of};

// The last digits of n, as many as out has room for.
pub fn put_digits(out: &mut [u8], n: u64)
    ensures { out.new ≡ digits_of (length out.old) n }
{
    let mut m = n;
    for i in (0..out.len()).rev() {
        out[i] = 48 + (m % 10) as u8;
        m = m / 10;
    }
}
