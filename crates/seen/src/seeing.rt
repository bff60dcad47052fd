// What a line tells of an offer: its number, the bit that the check repaired, m, and the polarity. A
// taken offer tells them; a refusal carries its number alone, so the string of a refused one is read
// and checked again. Its polarity is not told.
ghost use Rattle.std.specs.Prelude.{◌≡◌, get_or};
ghost use Rattle.channel.specs.Offers.{answer_paper};
ghost use Rattle.seen.specs.Seen.{bit_in, seen, seen_in, comes_before_verdict, seen_by};

use channel::TakenString;
use hearing::hear;
use relative::polarity_number;
use strings::{Refusal, Verdict};

#[derive(Clone, Copy)]
pub struct Seen {
    pub repaired: u8,
    pub m: u8,
    pub polarity: u8,
}

// The number of an answer, 0 where the string is taken.
pub fn number_told(a: Result<TakenString, Refusal>) -> u8
    ensures { result ≡ get_or (answer_paper a) 0 0 }
{
    match a {
        Ok(_) => 0,
        Err(why) => strings::refusal_number(why),
    }
}

// What the answer to a string lets a line tell.
pub fn seen_by(a: Result<TakenString, Refusal>, s: &[u8]) -> Seen
    ensures { result ≡ seen_by a s.now }
{
    match a {
        Ok(taken) => Seen {
            repaired: bit_in(taken.verdict),
            m: taken.m,
            polarity: polarity_number(taken.polarity),
        },
        Err(why) => seen_after(why, s),
    }
}

// NUMBER needs no word of its own: its m is 0.
fn seen_after(why: Refusal, s: &[u8]) -> Seen
    ensures { result ≡ seen_by (Err why) s.now }
{
    if comes_before_verdict(why) {
        return nothing();
    }
    see(s)
}

// Whether a refusal comes before the check has a verdict: 1 to 4, 31 to 33 among
// them, and 15 and 16, which stand before 2.
fn comes_before_verdict(why: Refusal) -> bool
    ensures { result ≡ comes_before_verdict why }
{
    matches!(
        why,
        Refusal::Channel
            | Refusal::Shape
            | Refusal::Damaged(_)
            | Refusal::Idle
            | Refusal::Owner
            | Refusal::Card
    )
}

// What is heard of a string shows the bit and m.
fn see(s: &[u8]) -> Seen
    ensures { result ≡ seen_in s.now }
{
    let mut whole = [0u8; 11];
    let heard = hear(s, &mut whole);
    match heard {
        Err(_) => nothing(),
        Ok(v) => Seen {
            repaired: bit_in(v),
            m: words::number_in(&whole),
            polarity: 0,
        },
    }
}

fn nothing() -> Seen
    ensures { result ≡ seen 0 0 0 }
{
    Seen {
        repaired: 0,
        m: 0,
        polarity: 0,
    }
}

// The bit that a verdict names, 0 where it names none: a line of the listing has numbers alone.
fn bit_in(v: Verdict) -> u8
    ensures { result ≡ bit_in v }
{
    match v {
        Verdict::Clean => 0,
        Verdict::Repaired(i) => i,
    }
}
