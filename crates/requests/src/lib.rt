// Any public call, made by a request: one byte op, two bytes big-endian length, then that many bytes.
// Requests come one after another on standard input, and each is answered by one line of output, but a
// block by a line for each of its calls and one for its end. They speak for card one, or name the card
// (`cards`). Or one block alone, of any length, for card one.
#![tactic(auto)]

mod answers;
mod block_calls;
mod block_stream;
mod cards;
mod float_calls;
mod kinds;
mod line;
mod navigation_calls;
mod payloads;
mod salvage_call;
mod site_calls;
mod sky_calls;
mod sky_stream;
mod sky_words;
mod station_answers;
mod station_calls;
mod station_queries;
mod string_calls;
mod word_calls;
mod words_taken;
mod words_told;

ghost use Rattle.requests.specs.declared.kinds.Request.TheVariants.{Block};
ghost use Rattle.std.specs.Prelude.{◌≢◌, ◌≤◌, IfOk};

use answers::{Unanswered, say_bad, say_no, say_short};
use block_calls::block_call;
pub use block_stream::list_block;
use cards::{Asking, who_asks};
use float_calls::{float_call, floats_call};
use kinds::Request;
use line::{Text, put_text};
use navigation_calls::{carrier_call, five_call, navigation_call};
use payloads::pair;
use salvage_call::salvage_call;
use site_calls::{exchange_call, join_call};
use sky_calls::{chip_call, sky_call};
pub use sky_stream::write_sky;
use station::Station;
use station_calls::{fresh_call, offer_call, reset_call};
use station_queries::{
    entry_call, entry_words_call, health_call, immediate_call, summary_call, tallies_call,
};
use streams::{read_full, write_all};
use string_calls::{check_call, from_relative_call, to_relative_call};
use word_calls::{read_call, write_call};

// The station that the requests speak to, and the one that is set aside.
#[derive(Clone, Copy)]
pub(crate) struct Stations {
    pub(crate) in_use: Station,
    pub(crate) aside: Station,
}

// The line for one whole request but a block, of which the lines are told one by one.
fn answer(asking: Asking, stations: &mut Stations, text: &mut Text) -> Result<usize, Unanswered>
    requires { asking.request ≢ Block }
    ensures { IfOk result (λ n. n ≤ 512) }
{
    let card = asking.card;
    let own = asking.own;
    let st = stations.in_use;
    match asking.request {
        Request::FromRelative => from_relative_call(own, text),
        Request::ToRelative => to_relative_call(own, text),
        Request::Check => check_call(own, text),
        Request::Read => read_call(own, text),
        Request::Write => write_call(own, text),
        Request::Offer => offer_call(card, own, &mut stations.in_use, text),
        Request::Reset => reset_call(card, own, &mut stations.in_use, text),
        Request::Immediate => immediate_call(card, own, st, text),
        Request::Entry => entry_call(card, own, st, text),
        Request::Tallies => tallies_call(card, own, st, text),
        Request::Health => health_call(card, own, st, text),
        Request::Fresh => fresh_call(own, &mut stations.in_use, text),
        Request::Block => unreachable!(),
        Request::Summary => summary_call(card, own, st, text),
        Request::Float => float_call(own, text),
        Request::Floats => floats_call(own, text),
        Request::Salvage => salvage_call(own, text),
        Request::Navigation => navigation_call(own, st, text),
        Request::Sky => sky_call(own, text),
        Request::Chip => chip_call(own, text),
        Request::Exchange => exchange_call(own, stations, text),
        Request::Join => join_call(own, stations, text),
        Request::EntryWords => entry_words_call(card, own, st, text),
        Request::Five => five_call(own, st, text),
        Request::Carrier => carrier_call(own, st, text),
    }
}

// Ends the line and writes it.
pub(crate) fn print<R: Print>(rt: &R, text: &mut Text, n: usize)
    requires { n ≤ 512 }
{
    let end = put_text(text, n, b"\n");
    write_all(rt, &text[..end]);
}

// The input stopped within a request, of which this many bytes came.
fn print_short<R: Print>(rt: &R, count: usize) {
    let mut text = [0u8; 512];
    let n = say_short(&mut text, count);
    print(rt, &mut text, n);
}

// The two stations after one whole request, of which the lines are printed.
fn turned_by<R: Print>(rt: &R, op: u8, payload: &[u8], stations: Stations) -> Stations {
    let mut after = stations;
    let mut text = [0u8; 512];
    let told = match who_asks(op, payload) {
        None => Err(Unanswered::Bad),
        Some(asking) => {
            if let Request::Block = asking.request {
                after.in_use = block_call(rt, asking.card, asking.own, stations.in_use);
                return after;
            }
            answer(asking, &mut after, &mut text)
        }
    };
    let n = line_or_no(&mut text, told, op);
    print(rt, &mut text, n);
    after
}

// A bad request is told by its op as it came.
fn line_or_no(text: &mut Text, told: Result<usize, Unanswered>, op: u8) -> usize
    requires { IfOk told (λ n. n ≤ 512) }
    ensures { result ≤ 512 }
{
    match told {
        Ok(n) => n,
        Err(Unanswered::Bad) => say_bad(text, op),
        Err(Unanswered::Refused(r)) => say_no(text, r),
    }
}

// Reads one request and prints its line. None where no other follows.
fn turn<R: Input + Print>(rt: &R, space: &mut [u8; 65536], stations: Stations) -> Option<Stations> {
    let mut head = [0u8; 3];
    let got = read_full(rt, &mut head);
    if got == 0 {
        return None;
    }
    if got < 3 {
        print_short(rt, got);
        return None;
    }
    let [op, high, low] = head;
    let size = pair(high, low);
    let payload = &mut space[..size];
    let came = read_full(rt, payload);
    if came < size {
        print_short(rt, 3 + came);
        return None;
    }
    Some(turned_by(rt, op, payload, stations))
}

// Answers every request, by a station that is fresh at the start, and one set aside that is fresh too.
pub fn answer_all<R: Input + Print>(rt: &R) {
    answer_from(rt, station::fresh());
}

// Answers every request, by a station that begins as it is handed over, and one set aside that is fresh.
// It returns nothing and only reads and writes, of which no contract can speak: it promises nothing but
// to end. Nothing says that the input ends, so the turns are counted up to a number that no run reaches.
pub fn answer_from<R: Input + Print>(rt: &R, st: Station) {
    let mut space = io::large_buffer();
    let mut stations = Stations {
        in_use: st,
        aside: station::fresh(),
    };
    for _ in 0..u64::MAX {
        let Some(next) = turn(rt, &mut space, stations) else {
            return;
        };
        stations = next;
    }
}
