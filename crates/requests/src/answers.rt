// The line that answers a request, in the paper's numbers.
ghost use Rattle.std.specs.Prelude.{◌≡◌, ◌≤◌, slice_index};
ghost use Rattle.strings.specs.Numbers.{verdict_paper};

use crate::line::{Text, put_hex, put_next, put_text};
use fields::Why;
use strings::{Refusal, Verdict};

// Why a request is not answered: it is none, or its payload has no such length; or its call says no.
#[derive(Clone, Copy)]
pub(crate) enum Unanswered {
    Bad,
    Refused(Refusal),
}

impl From<Refusal> for Unanswered {
    fn from(r: Refusal) -> Unanswered {
        Unanswered::Refused(r)
    }
}

// `no N`, for RANGE `no 10 PLACE`.
pub(crate) fn say_no(text: &mut Text, r: Refusal) -> usize
    ensures { result ≤ 512 }
{
    let no = put_text(text, 0, b"no");
    let end = put_next(text, no, strings::refusal_number(r) as u64);
    match r {
        Refusal::Range(place) => put_next(text, end, place as u64),
        _ => end,
    }
}

// `no N PLACE`: a field of a block that is refused, with its place in the block.
pub(crate) fn say_no_field(text: &mut Text, why: Why, place: usize) -> usize
    ensures { result ≤ 512 }
{
    let no = put_text(text, 0, b"no");
    let end = put_next(text, no, fields::why_number(why) as u64);
    put_next(text, end, place as u64)
}

// `end`.
pub(crate) fn say_end(text: &mut Text) -> usize
    ensures { result ≤ 512 }
{
    put_text(text, 0, b"end")
}

// `bad OP`.
pub(crate) fn say_bad(text: &mut Text, op: u8) -> usize
    ensures { result ≤ 512 }
{
    let bad = put_text(text, 0, b"bad");
    put_next(text, bad, op as u64)
}

// `short COUNT`.
pub(crate) fn say_short(text: &mut Text, count: usize) -> usize
    ensures { result ≤ 512 }
{
    let short = put_text(text, 0, b"short");
    put_next(text, short, count as u64)
}

// `ok`.
pub(crate) fn say_ok(text: &mut Text) -> usize
    ensures { result ≤ 512 }
{
    put_text(text, 0, b"ok")
}

// `ok HEX`.
pub(crate) fn say_bytes(text: &mut Text, out: &[u8]) -> usize
    ensures { result ≤ 512 }
{
    let ok = put_text(text, 0, b"ok ");
    put_hex(text, ok, out)
}

// The bit that was repaired, 0 where none was.
pub(crate) fn bit_of(v: Verdict) -> u8
    ensures { result ≡ slice_index (verdict_paper v) 1 }
{
    match v {
        Verdict::Clean => 0,
        Verdict::Repaired(i) => i,
    }
}
