// A station that lives in the call: made fresh, offered all records of an input, then asked.
ghost use Rattle.std.specs.Prelude.{◌≡◌, length};
ghost use Rattle.book.specs.Book.{in_slot};
ghost use Rattle.channel.specs.Offers.{answer_paper};
ghost use Rattle.fields.specs.Sixteen.{channel_in, epoch_in, symbols_in};
ghost use Rattle.station.specs.Station.{OffersTo};
ghost use Rattle.measured.specs.Whole.{byte_of, SumsUp};

use channel::TakenString;
use fields::{channel_in, epoch_in, symbols_in};
use station::{Station, Stepped};
use strings::Refusal;

// Offers the records of an input, sixteen bytes each, to a fresh station, by card one, and adds up what
// they are told and a byte of its book.
#[unsafe(no_mangle)]
pub extern "C" fn measured_offers(input: &[u8]) -> u8
    ensures { SumsUp input.now result }
{
    let mut st = station::fresh();
    let mut sum: u8 = 0;
    for rec in input.chunks_exact(16) {
        let stepped = offer_record(st, rec);
        let answer = stepped.answer;
        st = stepped.station;
        sum = sum ^ byte_told(answer);
    }
    sum ^ top_of_slot_1(st)
}

fn offer_record(st: Station, rec: &[u8]) -> Stepped
    requires { length rec.now ≡ 16 }
    ensures { OffersTo st 1 (channel_in rec.now) (epoch_in rec.now) (symbols_in rec.now) result }
{
    station::offer(st, 1, channel_in(rec), epoch_in(rec), symbols_in(rec))
}

fn byte_told(a: Result<TakenString, Refusal>) -> u8
    ensures { result ≡ byte_of (answer_paper a) }
{
    match a {
        Ok(taken) => taken.m,
        Err(why) => strings::refusal_number(why),
    }
}

// The highest byte of the even half of slot 1.
pub fn top_of_slot_1(st: Station) -> u8
    ensures { result ≡ (in_slot st.book 1).etop }
{
    let book = st.book;
    let entry = book::entry_in(book, 1);
    entry.etop
}
