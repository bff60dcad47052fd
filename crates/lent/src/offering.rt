// An offer to a lent station. The row of its channel is copied out and back, of the book the entries
// that rise and, where one changed, its lines for the walk that sums them up; the station never.
ghost use Rattle.book.specs.Book.{InBook};
ghost use Rattle.shows.specs.Changes.{AllInBook};
ghost use Rattle.lent.specs.Lent.{OffersLent, BringsAll, BringsOne, SumsUp};

use crate::telling::told_in;
use book::{Entry, join, place_of, rises};
use shows::newly_shown;
use station::{Station, gate_number};
use summary::walk_book;

// Offers a string, in relative form and of any length, to a channel at an epoch. Card 1 has channels 0
// to 23, card 2 24 to 47. A card that is neither is told 16 CARD, a channel above 47 1 CHANNEL, and the
// other card's 15 OWNER, before anything of the station is read; then 2 SHAPE, 31 to 33 DAMAGED, 4 IDLE,
// 5 NUMBER, 6 EARLY, 7 STALE, 8 OFF BEAT, 9 CONFLICT. Taken: 0 and, in the next bytes, m; 0 clean or 1
// repaired; the bit that was repaired; 0 already held, 1 kept, 2 record built or 3 record out of range;
// and 1 where the symbols came inverted.
#[unsafe(no_mangle)]
pub extern "C" fn spineyarrow_offer(
    st: &mut Station,
    card: u8,
    channel: u8,
    epoch: u32,
    s: &[u8],
) -> u64
    ensures { OffersLent st.old card channel epoch s.now st.new result }
{
    let shut = gate_number(card, channel);
    if 0 < shut {
        return shut;
    }
    let i = channel as usize;
    let offered = channel::offer(st.rows[i], epoch, s);
    // told first: kept until the book has been brought up to date, the answer would lie in memory
    let told = told_in(offered.answer);
    st.rows[i] = offered.row;
    let shown = newly_shown(offered.answer, offered.row.present, offered.row.strings);
    bring_all(st, shown);
    told
}

// Brings all that is shown to the book, one after the other, and sums the book up.
fn bring_all(st: &mut Station, shown: [Option<(u8, Entry)>; 5])
    requires { AllInBook shown }
    ensures { BringsAll st.old shown st.new }
{
    let mut changed = false;
    for s in shown {
        changed = bring_one(st, s) | changed;
    }
    sum_up(st, changed);
}

// Joins what is shown to the book, in its place: an entry is copied only where what is shown rises.
// Answers whether it did.
fn bring_one(st: &mut Station, s: Option<(u8, Entry)>) -> bool
    requires { InBook s }
    ensures { BringsOne st.old s st.new result }
{
    let at = place_of(s);
    let higher = rises(st.book.entries[at], s);
    if higher {
        st.book.entries[at] = join(st.book.entries[at], s);
    }
    higher
}

// The summary of the book where an entry of it changed: a walk, and no walk where none did.
pub fn sum_up(st: &mut Station, changed: bool)
    ensures { SumsUp st.old changed st.new }
{
    if changed {
        st.summary = walk_book(st.book.entries);
    }
}
