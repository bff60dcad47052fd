// The records of a capture, written into a lent text from its start on, and what is written at the end.
ghost use Rattle.std.specs.Prelude.{◌≡◌, ◌+◌, ◌*◌, ◌/◌, ◌≤◌, length};
ghost use Rattle.navigation.specs.Writes.{record_bytes};
ghost use Rattle.station.specs.Station.{channels};
ghost use Rattle.navfile.specs.Calls.{office_heard, TellsRecord, TellsBlock, TellsEnd};

use crate::asking::ask;
use crate::{Office, Told};
use fields::{channel_in, epoch_in, symbols_in};
use station::offer;

// Offers a record's string, refused or not.
fn hear(office: Office, card: u8, rec: &[u8]) -> Office
    requires { length rec.now ≡ 16 }
    ensures { result ≡ office_heard card office rec.now }
{
    let channel = channel_in(rec);
    let epoch = epoch_in(rec);
    let symbols = symbols_in(rec);
    let st = office.station;
    let stepped = offer(st, card, channel, epoch, symbols);
    let station = stepped.station;
    let written = office.written;
    Office { station, written }
}

// Asks a record's channel, and then offers its string.
fn take_record(office: Office, card: u8, rec: &[u8], text: &mut [u8], at: usize) -> Told
    requires { (length rec.now ≡ 16) × (at + record_bytes ≤ length text.old) }
    ensures { TellsRecord card office rec.now text.old at result text.new }
{
    let channel = channel_in(rec);
    let told = ask(office, card, channel, text, at);
    let end = told.end;
    let asked = told.office;
    let after = hear(asked, card, rec);
    Told { office: after, end }
}

// The records that stand in the input one after the other. Bytes left over at its end are no record.
pub fn write_records(office: Office, card: u8, input: &[u8], text: &mut [u8]) -> Told
    requires { length input.now / 16 * record_bytes ≤ length text.old }
    ensures { TellsBlock card office input.now text.old result text.new }
{
    let mut after = office;
    let mut end = 0;
    for rec in input.chunks_exact(16) {
        let told = take_record(after, card, rec, text, end);
        after = told.office;
        end = told.end;
    }
    Told { office: after, end }
}

// At the end of the capture every channel is asked: those of the other card are refused.
pub fn write_last(office: Office, card: u8, text: &mut [u8]) -> Told
    requires { channels * record_bytes ≤ length text.old }
    ensures { TellsEnd card office text.old result text.new }
{
    let mut after = office;
    let mut end = 0;
    for channel in 0u8..48 {
        let told = ask(after, card, channel, text, end);
        after = told.office;
        end = told.end;
    }
    Told { office: after, end }
}
