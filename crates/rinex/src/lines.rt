// The lines of a record: 79 columns and a line feed.
ghost use Rattle.std.specs.Prelude.{◌≡◌, length};
ghost use Rattle.rinex.specs.Lines.{two_of, year_of, field_of, epoch_text, first_line, other_line};

use crate::epoch::Epoch;
use decimals::{put_decimal, put_digits, put_negated};

// The first: I2,1X,I2.2,4(1X,I2),F5.1,3D19.12. Clock bias is minus tau.
pub fn put_first(out: &mut [u8], n: u32, e: Epoch, tau: i32, gamma: i32, time: i32)
    requires { length out.old ≡ 80 }
    ensures { out.new ≡ first_line n e tau gamma time }
{
    put_epoch(&mut out[0..22], n, e);
    put_negated(&mut out[22..41], tau, 30);
    put_decimal(&mut out[41..60], gamma, 40);
    put_decimal(&mut out[60..79], time, 0);
    out[79] = b'\n';
}

// The others: 3X,4D19.12.
pub fn put_other(out: &mut [u8], place: i32, velocity: i32, acceleration: i32, last: i32)
    requires { length out.old ≡ 80 }
    ensures { out.new ≡ other_line place velocity acceleration last }
{
    out[0] = b' ';
    out[1] = b' ';
    out[2] = b' ';
    put_decimal(&mut out[3..22], place, 11);
    put_decimal(&mut out[22..41], velocity, 20);
    put_decimal(&mut out[41..60], acceleration, 30);
    put_decimal(&mut out[60..79], last, 0);
    out[79] = b'\n';
}

// I2,1X,I2.2,4(1X,I2),F5.1: the second is 0.
fn put_epoch(out: &mut [u8], n: u32, e: Epoch)
    requires { length out.old ≡ 22 }
    ensures { out.new ≡ epoch_text n e }
{
    put_two(&mut out[0..2], n);
    put_year(&mut out[2..5], e.year);
    put_field(&mut out[5..8], e.month);
    put_field(&mut out[8..11], e.day);
    put_field(&mut out[11..14], e.hour);
    put_field(&mut out[14..17], e.minute);
    out[17] = b' ';
    out[18] = b' ';
    out[19] = b'0';
    out[20] = b'.';
    out[21] = b'0';
}

// I2: two columns, a blank before one digit.
fn put_two(out: &mut [u8], n: u32)
    requires { length out.old ≡ 2 }
    ensures { out.new ≡ two_of n }
{
    if n < 10 {
        out[0] = b' ';
        out[1] = 48 + n as u8;
    } else {
        put_digits(out, n as u64);
    }
}

// 1X,I2.2: a blank, and the year's last two digits.
fn put_year(out: &mut [u8], year: u32)
    requires { length out.old ≡ 3 }
    ensures { out.new ≡ year_of year }
{
    out[0] = b' ';
    put_digits(&mut out[1..3], year as u64);
}

// 1X,I2.
fn put_field(out: &mut [u8], n: u32)
    requires { length out.old ≡ 3 }
    ensures { out.new ≡ field_of n }
{
    out[0] = b' ';
    put_two(&mut out[1..3], n);
}
