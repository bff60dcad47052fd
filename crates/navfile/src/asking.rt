// A channel asked for its record, which is written where its epoch is another than the one last written
// for its satellite.
ghost use Rattle.std.specs.Prelude.{◌≡◌, ◌+◌, ◌<◌, ◌≤◌, length};
ghost use Rattle.navigation.specs.Writes.{record_bytes};
ghost use Rattle.navfile.specs.Calls.{TellsAsk, TellsNew};

use crate::{Office, Told};
use digits::put;
use navigation::write_record;

// Four lines.
const RECORD: usize = 320;

pub fn ask(office: Office, card: u8, channel: u8, text: &mut [u8], at: usize) -> Told
    requires { at + record_bytes ≤ length text.old }
    ensures { TellsAsk card office channel text.old at result text.new }
{
    let mut lines = [0u8; RECORD];
    let st = office.station;
    let answer = write_record(st, card, channel, &mut lines);
    match answer {
        Ok((n, quarter)) => put_new(office, n, quarter, &lines, text, at),
        Err(_) => Told { office, end: at },
    }
}

// A record of a satellite and an epoch: written and remembered, or the one last written.
fn put_new(office: Office, n: u8, quarter: u32, lines: &[u8], text: &mut [u8], at: usize) -> Told
    requires { (n < 25) × (at + length lines.now ≤ length text.old) }
    ensures { TellsNew office n quarter lines.now text.old at result text.new }
{
    let i = n as usize;
    let mut written = office.written;
    if quarter == written[i] {
        return Told { office, end: at };
    }
    written[i] = quarter;
    let station = office.station;
    let after = Office { station, written };
    Told {
        office: after,
        end: put(text, at, lines),
    }
}
