// A record: channel, epoch in four bytes, the highest first, and a string in relative form.
ghost use Rattle.std.specs.Prelude.{◌≡◌, length};
ghost use Rattle.lines.specs.Line.{Lists};

use crate::{Line, Listed};
use fields::{channel_in, epoch_in, symbols_in};
use seen::{number_told, seen_by};
use station::Station;

// The listing speaks for card one.
const SPEAKS_FOR: u8 = 1;

// Offers a record's string to its channel at its epoch.
pub fn list_record(st: Station, rec: &[u8]) -> Listed
    requires { length rec.now ≡ 16 }
    ensures { Lists st rec.now result }
{
    let channel = channel_in(rec);
    let epoch = epoch_in(rec);
    let symbols = symbols_in(rec);
    let stepped = station::offer(st, SPEAKS_FOR, channel, epoch, symbols);
    let answer = stepped.answer;
    let seen = seen_by(answer, symbols);
    let after = stepped.station;
    Listed {
        station: after,
        line: Line {
            channel,
            epoch,
            number: number_told(answer),
            repaired: seen.repaired,
            m: seen.m,
            polarity: seen.polarity,
        },
    }
}
