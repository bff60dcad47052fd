// An offer's sixteen bytes: channel, epoch in four bytes, the highest first, and a string in relative
// form.
ghost use Rattle.std.specs.Prelude.{◌≡◌, [], ◌∷◌, ◌≤◌, length};
ghost use Rattle.strings.specs.Number.{value_of};
ghost use Rattle.fields.specs.Sixteen.{channel_in, epoch_in, symbols_in};

use strings::wide;

pub fn channel_in(rec: &[u8]) -> u8
    requires { 1 ≤ length rec.now }
    ensures { result ≡ channel_in rec.now }
{
    rec[0]
}

pub fn epoch_in(rec: &[u8]) -> u32
    requires { 5 ≤ length rec.now }
    ensures { result ≡ epoch_in rec.now }
{
    four(rec[1], rec[2], rec[3], rec[4])
}

pub fn symbols_in(rec: &[u8]) -> &[u8]
    requires { 16 ≤ length rec.now }
    ensures { result.now ≡ symbols_in rec.now }
{
    &rec[5..16]
}

// Four bytes as one number, the first highest.
fn four(a: u8, b: u8, c: u8, d: u8) -> u32
    ensures { result ≡ value_of (a ∷ b ∷ c ∷ d ∷ []) }
{
    wide(a) * 16777216 + wide(b) * 65536 + wide(c) * 256 + wide(d)
}
