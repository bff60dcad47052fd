// The times of a record: Moscow time less three hours.
ghost use Rattle.std.specs.Prelude.{◌≡◌, ◌≤◌, ◌<◌, pos};
ghost use Rattle.rinex.specs.Times.{InFourYears, moment_of, epoch_of, frame_time};

use calendar::date_of;

#[derive(Clone, Copy)]
pub struct Epoch {
    pub year: u32,
    pub month: u32,
    pub day: u32,
    pub hour: u32,
    pub minute: u32,
}

// tb counts quarters of an hour of day NT. Before three o'clock the epoch is on the day before.
pub fn epoch_of(n4: u32, nt: u32, tb: u32) -> Epoch
    requires { InFourYears n4 nt tb }
    ensures { result ≡ epoch_of n4 nt tb }
{
    let today = 1461 * (n4 - 1) + nt;
    if tb < 12 {
        moment(today - 1, 15 * tb + 1260)
    } else {
        moment(today, 15 * tb - 180)
    }
}

// So many minutes of a day.
fn moment(day: u32, minutes: u32) -> Epoch
    requires { day ≤ 30681 }
    ensures { result ≡ moment_of day minutes }
{
    let d = date_of(day);
    Epoch {
        year: d.year,
        month: d.month,
        day: d.day,
        hour: minutes / 60,
        minute: minutes % 60,
    }
}

// The message frame time, in seconds: of its own day, also where three hours less is the day before.
pub fn frame_time(tk: u32) -> i32
    requires { tk < 4096 }
    ensures { result ≡ pos (frame_time tk) }
{
    let seconds = tk / 128 * 3600 + tk / 2 % 64 * 60 + tk % 2 * 30;
    ((seconds + 75600) % 86400) as i32
}
