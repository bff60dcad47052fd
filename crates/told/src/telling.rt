// Answers in one number, for a host in C: the paper's numbers, the first in the lowest byte.
ghost use Rattle.std.specs.Prelude.{◌≡◌, [], ◌∷◌, get_or};
ghost use Rattle.strings.specs.Numbers.{refusal_paper, verdict_paper};
ghost use Rattle.strings.specs.Calls.{written_paper, checked_paper};
ghost use Rattle.told.specs.Told.{packed};

use strings::{Refusal, Verdict};

// What became of an output: 0, or the refusal's numbers.
pub fn written_told(w: Result<(), Refusal>) -> u64
    ensures { result ≡ packed (written_paper w) }
{
    match w {
        Ok(()) => 0,
        Err(why) => refusal_told(why) as u64,
    }
}

// What a check answers: 0 and the verdict's numbers, or the refusal's.
pub fn checked_told(c: Result<Verdict, Refusal>) -> u32
    ensures { result ≡ packed (checked_paper c) }
{
    match c {
        Ok(v) => 256 * (verdict_told(v) as u32),
        Err(why) => refusal_told(why) as u32,
    }
}

// The verdict's case, and the bit that was repaired.
pub fn verdict_told(v: Verdict) -> u16
    ensures { result ≡ packed (verdict_paper v) }
{
    match v {
        Verdict::Clean => 0,
        Verdict::Repaired(i) => pair(1, i),
    }
}

// A refusal's number, and the place that goes with RANGE.
pub fn refusal_told(why: Refusal) -> u16
    ensures { result ≡ packed (refusal_paper why) }
{
    pair(strings::refusal_number(why), place_in(why))
}

// The place, 0 where there is none: C is told one number.
fn place_in(why: Refusal) -> u8
    ensures { result ≡ get_or (refusal_paper why) 1 0 }
{
    match why {
        Refusal::Channel => 0,
        Refusal::Shape => 0,
        Refusal::Damaged(_) => 0,
        Refusal::Idle => 0,
        Refusal::Number => 0,
        Refusal::Early => 0,
        Refusal::Stale => 0,
        Refusal::OffBeat => 0,
        Refusal::Conflict => 0,
        Refusal::Range(place) => place,
        Refusal::Place => 0,
        Refusal::Room => 0,
        Refusal::Nothing => 0,
        Refusal::Slot => 0,
        Refusal::Owner => 0,
        Refusal::Card => 0,
    }
}

// Two numbers in one.
fn pair(first: u8, second: u8) -> u16
    ensures { result ≡ packed (first ∷ second ∷ []) }
{
    (first as u16) + 256 * (second as u16)
}
