// A walk line by line: where it begins, and one line more.
ghost use Rattle.std.specs.Prelude.{◌≡◌, ◌+◌, ◌^◌, ◌<◌};
ghost use Rattle.summary.specs.Walk.{none_filled, older_of, newer_of, with_line};

use crate::Summary;
use book::Entry;

// The summary of no lines.
pub fn none_filled() -> Summary
    ensures { result ≡ none_filled }
{
    Summary {
        count: 0,
        oldest: 0,
        newest: 0,
    }
}

// The older of two days, where the first may be none.
fn older_of(oldest: u16, day: u16) -> u16
    ensures { result ≡ older_of oldest day }
{
    if oldest == 0 {
        return day;
    }
    if day < oldest { day } else { oldest }
}

// The newer of two days.
fn newer_of(newest: u16, day: u16) -> u16
    ensures { result ≡ newer_of newest day }
{
    if newest < day { day } else { newest }
}

// One line more. A line of day 0 holds no entry.
pub fn with_line(s: Summary, e: Entry) -> Summary
    requires { s.count + 1 < 2 ^ 64 }
    ensures { result ≡ with_line s e }
{
    let day = e.day;
    if day == 0 {
        return s;
    }
    let oldest = s.oldest;
    let newest = s.newest;
    Summary {
        count: s.count + 1,
        oldest: older_of(oldest, day),
        newest: newer_of(newest, day),
    }
}
