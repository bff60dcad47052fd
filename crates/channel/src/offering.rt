// An offer of bytes of any length to a row.
ghost use Rattle.std.specs.Prelude.{◌≡◌, true, length};
ghost use Rattle.strings.specs.Number.{number_of};
ghost use Rattle.relative.specs.Polarity.{polarity_of};
ghost use Rattle.tallies.specs.Tallies.{after_offer};
ghost use Rattle.channel.specs.Row.{held_in};
ghost use Rattle.channel.specs.Offers.{OffersApart, Offers, outcome_of, is_placed, told_with, is_new, is_stored};

use crate::completing::is_built;
use crate::placing::place;
use crate::{Head, Moved, News, Offered, Row, TakenString};
use hearing::hear;
use immediate::first_four;
use relative::polarity_in;
use strings::{Refusal, Verdict};
use tallies::{Tallies, count_refused, count_taken};

// An offer to a row: SHAPE, DAMAGED, IDLE and 5 to 9, and the row after it, counted by the answer.
pub fn offer(mut row: Row, epoch: u32, s: &[u8]) -> Offered
    ensures { Offers row epoch s.now result }
{
    let mut all = row.strings;
    let head = Head {
        start: row.start,
        present: row.present,
    };
    let moved = offer_apart(head, &mut all, epoch, s);
    let after = moved.head;
    let placed = moved.answer;
    row.strings = all;
    row.start = after.start;
    row.present = after.present;
    if is_built(placed) {
        let record = first_four(all, after.start);
        row.immediate = record;
    }
    let answer = told_with(placed, s);
    let t = row.tallies;
    row.tallies = count(t, answer);
    Offered { row, answer }
}

// The answer to a plain string, told with the polarity of the symbols that it was read from: what
// placed it knows nothing of that.
fn told_with(a: Result<(u8, Verdict, News), Refusal>, s: &[u8]) -> Result<TakenString, Refusal>
    requires { is_placed a ≡ true → length s.now ≡ 11 }
    ensures { result ≡ told_with a (polarity_of (number_of s.now)) }
{
    match a {
        Err(why) => Err(why),
        Ok((m, v, news)) => Ok(TakenString {
            m,
            verdict: v,
            news,
            polarity: polarity_in(s),
        }),
    }
}

// An offer to a row that is taken apart: its strings where they lie, and its numbers.
fn offer_apart(head: Head, all: &mut [u8], epoch: u32, s: &[u8]) -> Moved
    requires { length all.old ≡ 165 }
    ensures { OffersApart (held_in head all.old) epoch s.now result.answer (held_in result.head all.new) }
{
    let mut whole = [0u8; 11];
    let heard = hear(s, &mut whole);
    match heard {
        Err(why) => Moved {
            head,
            answer: Err(why),
        },
        Ok(v) => place(head, all, epoch, &whole, v),
    }
}

// The tallies, moved by what an answer counts as.
fn count(t: Tallies, a: Result<TakenString, Refusal>) -> Tallies
    ensures { result ≡ after_offer (outcome_of a) t }
{
    match a {
        Err(why) => count_refused(t, why),
        Ok(taken) => count_taken(t, taken.verdict),
    }
}

// Whether an offer stored a string: one already held is stored no second time.
pub fn is_stored(a: Result<TakenString, Refusal>) -> bool
    ensures { result ≡ is_stored a }
{
    match a {
        Err(_) => false,
        Ok(taken) => is_new(taken.news),
    }
}

fn is_new(news: News) -> bool
    ensures { result ≡ is_new news }
{
    !matches!(news, News::AlreadyHeld)
}
