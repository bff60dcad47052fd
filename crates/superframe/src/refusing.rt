// Which words are refused.
ghost use Rattle.std.specs.Prelude.{◌≡◌, true, not, ◌≤◌, ◌<◌};
ghost use Rattle.superframe.specs.Sky.{entry_at};
ghost use Rattle.superframe.specs.Refused.{is_number, wrong_slot, is_refused, string_bad, lowest_bad};

use crate::Sky;
use crate::placing::record_in;
use strings::Refusal;

// Whether a word has the value k. A negative word has none.
fn is_number(z: i32, k: usize) -> bool
    ensures { result ≡ is_number z k }
{
    if z < 0 {
        return false;
    }
    words::magnitude(z) == k as u64
}

// Whether entry k, 1 to 24, carries nA k.
fn is_slot(sky: Sky, k: usize) -> bool
    requires { (1 ≤ k) × (k ≤ 24) }
    ensures { result ≡ is_number (entry_at sky k).even.na k }
{
    let at = k - 1;
    let e = sky.entries[at];
    let even = e.even;
    is_number(even.na, k)
}

// Whether the entries are slots 1 to 24 in order.
pub fn in_order(sky: Sky) -> bool
    ensures { result ≡ not (wrong_slot sky 24) }
{
    (1..25).all(|k| is_slot(sky, k))
}

// Whether an answer says no.
fn is_refused(w: Result<(), Refusal>) -> bool
    ensures { result ≡ is_refused w }
{
    match w {
        Ok(()) => false,
        Err(_) => true,
    }
}

// Whether the encoder refuses string i, 1 to 75, or it is string 5 and N4 is 0.
fn is_bad(sky: Sky, i: usize) -> bool
    requires { (1 ≤ i) × (i ≤ 75) }
    ensures { result ≡ string_bad sky i }
{
    let g = (i - 1) / 15;
    let m = (i - 1) % 15 + 1;
    let r = record_in(sky, g, m);
    let mut out = [0u8; 11];
    let w = words::write_words(m as u8, r, &mut out);
    if is_refused(w) {
        return true;
    }
    if i == 5 {
        let five = sky.five;
        return is_number(five.n4, 0);
    }
    false
}

// The lowest string that is refused; 0 where none is, as in `lowest_bad` of specs/Refused.antt, of which the
// theorems speak.
pub fn lowest_bad(sky: Sky) -> usize
    ensures { result ≡ lowest_bad sky 75 }
{
    (1..76).find(|i| is_bad(sky, *i)).unwrap_or(0)
}
