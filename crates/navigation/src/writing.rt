// A record written into a lent output.
ghost use Rattle.std.specs.Prelude.{◌≡◌, get_or};
ghost use Rattle.navigation.specs.declared.Unwritten.TheVariants.{Refused};
ghost use Rattle.rinex.specs.Times.{InFourYears};
ghost use Rattle.navigation.specs.Writes.{is_within, quarter_of, answer_paper, Writes};
ghost use Rattle.navigation.specs.Gathers.{AsRead, WritesAll};

use crate::Unwritten;
use crate::gathering::gather;
use records::ImmediateWords;
use rinex::record_text;
use station::Station;
use strings::{Refusal, refusal_number};

// Four lines of 79 columns and a line feed.
pub const RECORD: usize = 320;

// Writes the navigation record of a channel's satellite, for the card that asks, into the whole of out. It is
// answered which satellite's, and of which quarter of an hour since 31 December 1995, midnight in Moscow.
pub fn write_record(
    st: Station,
    card: u8,
    channel: u8,
    out: &mut [u8],
) -> Result<(u8, u32), Unwritten>
    ensures { Writes st card channel out.old result out.new }
{
    let (words, n4, carrier) = gather(st, card, channel)?;
    write_all(out, words, n4, carrier)
}

// What was gathered: NT and then N4 must be in range, and the output four lines long.
pub fn write_all(
    out: &mut [u8],
    words: ImmediateWords,
    n4: i32,
    carrier: i32,
) -> Result<(u8, u32), Unwritten>
    requires { AsRead words n4 }
    ensures { WritesAll words n4 carrier out.old result out.new }
{
    let nt = words.four.nt as u32;
    if !is_within(nt, 1461) {
        return Err(Unwritten::Refused(Refusal::Range(26)));
    }
    let years = n4 as u32;
    if !is_within(years, 21) {
        return Err(Unwritten::Refused(Refusal::Range(36)));
    }
    if out.len() != RECORD {
        return Err(Unwritten::Lines);
    }
    record_text(out, words, n4, carrier);
    let quarter = quarter_of(years, nt, words.two.tb as u32);
    Ok((words.four.n as u8, quarter))
}

// What says no to the gathering says no to the record.
impl From<Refusal> for Unwritten {
    ghost from_gives = { λ why u. u ≡ Refused why };

    fn from(why: Refusal) -> Unwritten {
        Unwritten::Refused(why)
    }
}

// The answer's number: 0 where a record is written.
pub fn answer_number(a: Result<(u8, u32), Unwritten>) -> u8
    ensures { result ≡ get_or (answer_paper a) 0 0 }
{
    match a {
        Ok(_) => 0,
        Err(Unwritten::Refused(why)) => refusal_number(why),
        Err(Unwritten::Lines) => 17,
    }
}

fn is_within(k: u32, most: u32) -> bool
    ensures { result ≡ is_within 1 most k }
{
    if k == 0 {
        return false;
    }
    k <= most
}

// An epoch in quarters of an hour, which tb counts.
fn quarter_of(n4: u32, nt: u32, tb: u32) -> u32
    requires { InFourYears n4 nt tb }
    ensures { result ≡ quarter_of n4 nt tb }
{
    (1461 * (n4 - 1) + nt) * 96 + tb
}
