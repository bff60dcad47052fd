// Numbers in decimal, written into a lent text from the place `at` on. Each function answers the place
// past what it wrote.
#![tactic(auto)]

ghost use Rattle.std.specs.Prelude.{◌+◌, ◌≤◌, ◌<◌, length};
ghost use Rattle.digits.specs.Text.{cell, row, Puts};

// A piece as it is.
pub fn put(text: &mut [u8], at: usize, s: &[u8]) -> usize
    requires { at + length s.now ≤ length text.old }
    ensures { Puts text.old at s.now text.new result }
{
    text[at..at + s.len()].copy_from_slice(s);
    at + s.len()
}

// A number in decimal, and one byte after it.
pub fn put_number(text: &mut [u8], at: usize, n: u64, after: u8) -> usize
    requires { at + length (cell n after) ≤ length text.old }
    ensures { Puts text.old at (cell n after) text.new result }
{
    let mut digits = [0u8; 20];
    let k = io::decimal(n, &mut digits);
    let end = put(text, at, &digits[..k]);
    put(text, end, &[after])
}

// Numbers in decimal: a space after each, a line feed after the last.
pub fn put_numbers(text: &mut [u8], at: usize, numbers: &[u64]) -> usize
    requires { (at + length (row numbers.now) ≤ length text.old) × (0 < length numbers.now) }
    ensures { Puts text.old at (row numbers.now) text.new result }
{
    let last = numbers.len() - 1;
    let mut end = at;
    for n in &numbers[..last] {
        end = put_number(text, end, *n, b' ');
    }
    put_number(text, end, numbers[last], b'\n')
}
