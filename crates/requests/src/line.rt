// A line of output, written into a lent text from the place `at` on. Each function answers the place
// past what it wrote. What does not fit is left out, which no answer reaches.
// It is written by hand and not by `write!` into a `String`, since all memory is fixed: there is no heap.
ghost use Rattle.std.specs.Prelude.{◌+◌, ◌≤◌, length};

// Its length is part of its type, so that a bound on a number keeps a place within it.
pub(crate) type Text = [u8; 512];

pub(crate) fn put_text(text: &mut Text, at: usize, s: &[u8]) -> usize
    requires { at ≤ 512 }
    ensures { result ≤ 512 }
{
    if s.len() > 512 - at {
        return at;
    }
    let end = at + s.len();
    text[at..end].copy_from_slice(s);
    end
}

// A number in decimal.
pub(crate) fn put_number(text: &mut Text, at: usize, n: u64) -> usize
    requires { at ≤ 512 }
    ensures { result ≤ 512 }
{
    let mut digits = [0u8; 20];
    let k = io::decimal(n, &mut digits);
    put_text(text, at, &digits[..k])
}

// The same behind a space.
pub(crate) fn put_next(text: &mut Text, at: usize, n: u64) -> usize
    requires { at ≤ 512 }
    ensures { result ≤ 512 }
{
    let space = put_text(text, at, b" ");
    put_number(text, space, n)
}

// A number that may be negative, in decimal.
pub(crate) fn put_signed(text: &mut Text, at: usize, z: i32) -> usize
    requires { at ≤ 512 }
    ensures { result ≤ 512 }
{
    if z < 0 {
        let minus = put_text(text, at, b"-");
        put_number(text, minus, words::magnitude(z))
    } else {
        put_number(text, at, words::magnitude(z))
    }
}

// Each value behind a space.
pub(crate) fn put_values(text: &mut Text, at: usize, values: &[i32]) -> usize
    requires { at ≤ 512 }
    ensures { result ≤ 512 }
{
    let mut to = at;
    for value in values {
        let space = put_text(text, to, b" ");
        to = put_signed(text, space, *value);
    }
    to
}

// Bytes in lower case hexadecimal.
pub(crate) fn put_hex(text: &mut Text, at: usize, s: &[u8]) -> usize
    requires { at ≤ 512 }
    ensures { result ≤ 512 }
{
    let mut to = at;
    for byte in s {
        to = put_pair(text, to, *byte);
    }
    to
}

// A byte's two digits.
pub(crate) fn put_pair(text: &mut Text, at: usize, b: u8) -> usize
    requires { at ≤ 512 }
    ensures { result ≤ 512 }
{
    put_digits(text, at, b as u64, 2)
}

// A number in lower case hexadecimal, with zeros in front up to a width of at most 16 digits.
pub(crate) fn put_digits(text: &mut Text, at: usize, n: u64, width: usize) -> usize
    requires { at ≤ 512 }
    ensures { result ≤ 512 }
{
    let mut digits = [0u8; 16];
    let k = io::hex(n, width, &mut digits);
    put_text(text, at, &digits[..k])
}
