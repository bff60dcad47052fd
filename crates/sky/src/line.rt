// The 200 line symbols of one string.
ghost use Rattle.std.specs.Prelude.{◌≡◌, ◌+◌, ◌<◌, ◌≤◌, ◌++◌, length, take, drop};
ghost use Rattle.sky.specs.Line.{symbol_of, halves, line_of};
ghost use Rattle.sky.specs.Front.{Front};

// The time mark.
const MARK: [u8; 30] =
    *b"\x01\x01\x01\x01\x01\0\0\0\x01\x01\0\x01\x01\x01\0\x01\0\x01\0\0\0\0\x01\0\0\x01\0\x01\x01\0";

// Symbol j of a string in relative form.
fn symbol(s: &[u8], j: usize) -> u8
    requires { (length s.now ≡ 11) × (j < 88) }
    ensures { result ≡ symbol_of s.now j }
{
    (s[j / 8] >> (7 - j % 8)) % 2
}

// The 170 half symbols of a string go to the output from `at`: 0 is sent as 01, 1 as 10.
fn write_halves(s: &[u8], out: &mut [u8], at: usize)
    requires { (length s.now ≡ 11) × (at + 170 ≤ length out.old) }
    ensures { Front out.old (take at out.old ++ halves s.now 85) out.new (at + 170) }
{
    for j in 0..85 {
        let b = symbol(s, j);
        out[at + 2 * j] = b;
        out[at + 2 * j + 1] = 1 - b;
    }
}

// The 200 line symbols of a string in relative form go to the output from `at`.
pub fn write_line(s: &[u8], out: &mut [u8], at: usize)
    requires { (length s.now ≡ 11) × (at + 200 ≤ length out.old) }
    ensures { out.new ≡ take at out.old ++ (line_of s.now ++ drop (at + 200) out.old) }
{
    write_halves(s, out, at);
    let a = at + 170;
    let e = at + 200;
    out[a..e].copy_from_slice(&MARK);
}
