// Counting an offer.
ghost use Rattle.std.specs.Prelude.{◌≡◌, get_or};
ghost use Rattle.strings.specs.Numbers.{refusal_paper};
ghost use Rattle.tallies.specs.Tallies.{none_counted, one_more, one_more_if, causes_after, after_offer};
ghost use Rattle.tallies.specs.Tallies.Outcome.{Refused, Taken};

use crate::{Causes, Tallies};
use strings::{Refusal, Verdict, refusal_number};

// Where a tally stays.
const LIMIT: u32 = 4294967295;

// A reset channel's tallies.
pub fn none_counted() -> Tallies
    ensures { result ≡ none_counted }
{
    Tallies {
        offered: 0,
        clean: 0,
        repaired: 0,
        refused: 0,
        causes: Causes {
            shape: 0,
            unplaced: 0,
            even: 0,
            outside: 0,
            idle: 0,
            number: 0,
            early: 0,
            stale: 0,
            offbeat: 0,
            conflict: 0,
        },
    }
}

// A tally at the limit is not added to: 32 bits have no room for it.
fn one_more(tally: u32) -> u32
    ensures { result ≡ one_more tally }
{
    if tally < LIMIT { tally + 1 } else { LIMIT }
}

fn one_more_if(counts: bool, tally: u32) -> u32
    ensures { result ≡ one_more_if counts tally }
{
    if counts { one_more(tally) } else { tally }
}

// An offer refused: with 2 to 9 under its cause too. A refusal that no offer on a channel gets has none.
pub fn count_refused(t: Tallies, why: Refusal) -> Tallies
    ensures { result ≡ after_offer (Refused (get_or (refusal_paper why) 0 0)) t }
{
    Tallies {
        offered: one_more(t.offered),
        clean: t.clean,
        repaired: t.repaired,
        refused: one_more(t.refused),
        causes: count_cause(t, refusal_number(why)),
    }
}

// The tally of the number that an offer was refused with, one more.
fn count_cause(t: Tallies, k: u8) -> Causes
    ensures { result ≡ causes_after (Refused k) t }
{
    let c = t.causes;
    Causes {
        shape: one_more_if(k == 2, c.shape),
        unplaced: one_more_if(k == 31, c.unplaced),
        even: one_more_if(k == 32, c.even),
        outside: one_more_if(k == 33, c.outside),
        idle: one_more_if(k == 4, c.idle),
        number: one_more_if(k == 5, c.number),
        early: one_more_if(k == 6, c.early),
        stale: one_more_if(k == 7, c.stale),
        offbeat: one_more_if(k == 8, c.offbeat),
        conflict: one_more_if(k == 9, c.conflict),
    }
}

// An offer taken, by its verdict; one that is already held counts too. It moves no cause.
pub fn count_taken(t: Tallies, v: Verdict) -> Tallies
    ensures { result ≡ after_offer (Taken v) t }
{
    let offered = one_more(t.offered);
    let causes = t.causes;
    match v {
        Verdict::Clean => Tallies {
            offered,
            clean: one_more(t.clean),
            repaired: t.repaired,
            refused: t.refused,
            causes,
        },
        Verdict::Repaired(_) => Tallies {
            offered,
            clean: t.clean,
            repaired: one_more(t.repaired),
            refused: t.refused,
            causes,
        },
    }
}
