// The calls that change a station.
ghost use Rattle.std.specs.Prelude.{◌≡◌, ◌&&◌};
ghost use Rattle.channel.specs.Row.{frame_of};
ghost use Rattle.shows.specs.Shows.{shows_of, brought, changes};
ghost use Rattle.channel.specs.Offers.{is_stored};
ghost use Rattle.strings.specs.Pick.{pick};
ghost use Rattle.station.specs.Station.{fresh_station, corrected, OffersTo, Resets};

use crate::entering::enter;
use crate::{CHANNELS, Emptied, Station, Stepped};
use book::{Book, empty_book};
use channel::{Row, TakenString, empty_row, is_stored};
use shows::{Brought, bring};
use strings::Refusal;
use summary::{Summary, walk_book};

// A station that has heard nothing.
pub fn fresh() -> Station
    ensures { result ≡ fresh_station }
{
    let row = empty_row();
    let rows = [row; CHANNELS];
    let none = Summary {
        count: 0,
        oldest: 0,
        newest: 0,
    };
    Station {
        rows,
        book: empty_book(),
        summary: none,
    }
}

// Offers a string, in relative form and of any length, to a channel at an epoch.
pub fn offer(mut st: Station, card: u8, channel: u8, epoch: u32, s: &[u8]) -> Stepped
    ensures { OffersTo st card channel epoch s.now result }
{
    let gate = enter(card, channel);
    match gate {
        Err(why) => Stepped {
            station: st,
            answer: Err(why),
        },
        Ok(i) => {
            let row = st.rows[i];
            let offered = channel::offer(row, epoch, s);
            let next = offered.row;
            let answer = offered.answer;
            st.rows[i] = next;
            let book = st.book;
            let brought = bring_if(answer, next, book);
            let joined = brought.book;
            st.book = joined;
            let old = st.summary;
            let kept = next_summary(brought.changed, joined, old);
            st.summary = kept;
            Stepped {
                station: st,
                answer,
            }
        }
    }
}

// A string newly stored brings all that its frame then shows to the book; without one nothing
// changes.
fn bring_if(answer: Result<TakenString, Refusal>, row: Row, b: Book) -> Brought
    ensures { (result.book ≡ pick (is_stored answer) (brought b (shows_of (frame_of row))) b) × (result.changed ≡ (is_stored answer && changes b (shows_of (frame_of row)))) }
{
    if is_stored(answer) {
        bring(row, b)
    } else {
        Brought {
            book: b,
            changed: false,
        }
    }
}

// The summary of a book where an entry of it changed: a walk, and no walk where none did.
pub fn next_summary(changed: bool, b: Book, old: Summary) -> Summary
    ensures { result ≡ corrected changed b old }
{
    if !changed {
        return old;
    }
    let entries = b.entries;
    walk_book(entries)
}

// Empties a channel's row, its record and its tallies. The book and its summary stay.
pub fn reset(mut st: Station, card: u8, channel: u8) -> Emptied
    ensures { Resets st card channel result }
{
    let gate = enter(card, channel);
    match gate {
        Err(refusal) => Emptied {
            station: st,
            answer: Err(refusal),
        },
        Ok(i) => {
            let row = empty_row();
            st.rows[i] = row;
            Emptied {
                station: st,
                answer: Ok(()),
            }
        }
    }
}
