// Dates: what so many days after 31 December 1995 are.
#![tactic(auto)]

ghost use Rattle.std.specs.Prelude.{◌≡◌, ◌≤◌, ◌<◌};
ghost use Rattle.calendar.specs.Calendar.{date_of};
ghost use Rattle.calendar.specs.FourYears.{IsMonth};

#[derive(Clone, Copy)]
pub struct Date {
    pub year: u32,
    pub month: u32,
    pub day: u32,
}

// The date n days after 31 December 1995, to 31 December 2079.
pub fn date_of(n: u32) -> Date
    requires { n ≤ 30681 }
    ensures { result ≡ date_of n }
{
    // from 1 January 1992, whose four years are the ones before those of N4 1
    let days = n + 1460;
    let rest = days % 1461;
    let i = month_of(rest);
    let month = i as u32;
    Date {
        year: 1992 + days / 1461 * 4 + month / 12,
        month: month % 12 + 1,
        day: rest - STARTS[i] + 1,
    }
}

// Which of the 48 months has a day of the four years.
fn month_of(rest: u32) -> usize
    requires { rest < 1461 }
    ensures { IsMonth rest result }
{
    // the last one that begins on this day or before it
    STARTS.partition_point(|start| *start <= rest) - 1
}

// On which day of four years each month begins, counted from 0, and the end of the last.
const STARTS: [u32; 49] = [
    0, // a leap year
    31, 60, 91, 121, 152, 182, 213, 244, 274, 305, 335, 366, // the second year
    397, 425, 456, 486, 517, 547, 578, 609, 639, 670, 700, 731, // the third
    762, 790, 821, 851, 882, 912, 943, 974, 1004, 1035, 1065, 1096, // the fourth
    1127, 1155, 1186, 1216, 1247, 1277, 1308, 1339, 1369, 1400, 1430, 1461,
];
