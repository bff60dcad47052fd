// The lines as text, written into a lent text from the place `at` on. Each function answers the
// place past what it wrote.
ghost use Rattle.std.specs.Prelude.{◌≡◌, ◌+◌, ◌*◌, ◌/◌, ◌≤◌, ◌<◌, length};
ghost use Rattle.digits.specs.Text.{Within, Puts};
ghost use Rattle.lines.specs.Text.{numbers_of, line_digits, line_bytes, line_text, left_over, Prints};

use crate::record_lines::list_record;
use crate::{Line, Printed};
use digits::{put, put_number, put_numbers};
use station::Station;

// The numbers of a line, none with more digits than its type has.
fn numbers_of(line: Line) -> [u64; 6]
    ensures { (result ≡ numbers_of line) × Within line_digits result }
{
    [
        line.channel as u64,
        line.epoch as u64,
        line.number as u64,
        line.repaired as u64,
        line.m as u64,
        line.polarity as u64,
    ]
}

fn put_line(text: &mut [u8], at: usize, line: Line) -> usize
    requires { at + line_bytes ≤ length text.old }
    ensures { Puts text.old at (line_text line) text.new result × (result ≤ at + line_bytes) }
{
    let numbers = numbers_of(line);
    put_numbers(text, at, &numbers)
}

// Bytes left over, fewer than a record has.
fn put_left_over(text: &mut [u8], at: usize, count: usize) -> usize
    requires { (at + line_bytes ≤ length text.old) × (count < 16) }
    ensures { Puts text.old at (left_over count) text.new result × (result ≤ at + line_bytes) }
{
    if count == 0 {
        return at;
    }
    let number = put(text, at, b"short ");
    put_number(text, number, count as u64, b'\n')
}

// Offers the records that stand in the input one after the other, and writes their lines.
pub fn print_records(st: Station, input: &[u8], text: &mut [u8]) -> Printed
    requires { length input.now / 16 * line_bytes + line_bytes ≤ length text.old }
    ensures { Prints st input.now text.old result text.new }
{
    let mut after = st;
    let mut end = 0;
    for rec in input.chunks_exact(16) {
        let listed = list_record(after, rec);
        after = listed.station;
        end = put_line(text, end, listed.line);
    }
    Printed {
        station: after,
        end: put_left_over(text, end, input.len() % 16),
    }
}
