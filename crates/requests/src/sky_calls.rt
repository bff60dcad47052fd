// A string of a sky, and a chip of the ranging code.
ghost use Rattle.std.specs.Prelude.{◌≡◌, ◌+◌, ◌*◌, ◌<◌, ◌≤◌, length, IfOk};

use crate::answers::{Unanswered, say_no, say_ok};
use crate::line::{Text, put_next, put_pair, put_text};
use crate::payloads::{bytes, pair};
use crate::sky_words::{SKY_BYTES, sky_from};
use sky::{Unmade, make_sky};
use superframe::Sky;

// The greatest room that a request can ask for.
const MOST: usize = 16000;

// The room in two bytes, which of the 75 strings, counted from 1, and the words.
pub(crate) fn sky_call(payload: &[u8], text: &mut Text) -> Result<usize, Unanswered>
    ensures { IfOk result (λ n. n ≤ 512) }
{
    let [high, low, which, words @ ..] = payload else {
        return Err(Unanswered::Bad);
    };
    if words.len() != SKY_BYTES {
        return Err(Unanswered::Bad);
    }
    let room = pair(*high, *low);
    if room > MOST {
        return Err(Unanswered::Bad);
    }
    let which = *which as usize;
    if !(1..=75).contains(&which) {
        return Err(Unanswered::Bad);
    }
    let mut out = [0u8; MOST];
    Ok(say_sky(text, sky_from(words), which - 1, &mut out[..room]))
}

fn say_sky(text: &mut Text, words: Sky, i: usize, out: &mut [u8]) -> usize
    requires { i < 75 }
    ensures { result ≤ 512 }
{
    match make_sky(words, out) {
        Ok(()) => say_symbols(text, out, i),
        Err(unmade) => say_unmade(text, unmade),
    }
}

// `no N`; 18 is that of words that are out of order.
pub(crate) fn say_unmade(text: &mut Text, unmade: Unmade) -> usize
    ensures { result ≤ 512 }
{
    match unmade {
        Unmade::Refused(r) => say_no(text, r),
        Unmade::OutOfOrder => put_text(text, 0, b"no 18"),
    }
}

// `ok HEX`: the 200 symbols of string i, counted from 0, eight to a byte. What is made has 15,000 of them.
fn say_symbols(text: &mut Text, out: &[u8], i: usize) -> usize
    requires { i < 75 }
    ensures { result ≤ 512 }
{
    let ok = put_text(text, 0, b"ok ");
    if out.len() != 15000 {
        return ok;
    }
    put_symbols(text, ok, &out[i * 200..i * 200 + 200])
}

fn put_symbols(text: &mut Text, at: usize, line: &[u8]) -> usize
    requires { (at ≤ 512) × (length line.now ≡ 200) }
    ensures { result ≤ 512 }
{
    let mut to = at;
    for eight in line.chunks_exact(8) {
        to = put_pair(text, to, eight_in(eight));
    }
    to
}

// Eight symbols in a byte, the first highest.
fn eight_in(s: &[u8]) -> u8
    requires { length s.now ≡ 8 }
{
    let high = s[0] % 2 * 8 + s[1] % 2 * 4 + s[2] % 2 * 2 + s[3] % 2;
    let low = s[4] % 2 * 8 + s[5] % 2 * 4 + s[6] % 2 * 2 + s[7] % 2;
    high * 16 + low
}

// The chip's number in two bytes.
pub(crate) fn chip_call(payload: &[u8], text: &mut Text) -> Result<usize, Unanswered>
    ensures { IfOk result (λ n. n ≤ 512) }
{
    let [high, low] = bytes::<2>(payload)?;
    let chip = chips::chip(pair(high, low));
    let ok = say_ok(text);
    Ok(put_next(text, ok, chip as u64))
}
