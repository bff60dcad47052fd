// The parts of a lent station, copied out: a row, an entry, the summary.
ghost use Rattle.std.specs.Prelude.{◌≡◌, ◌<◌};
ghost use Rattle.book.specs.Book.{slots};
ghost use Rattle.station.specs.Station.{channels, row_at};
ghost use Rattle.lent_queries.specs.Lent.{entry_at};

use book::Entry;
use channel::Row;
use station::Station;
use summary::Summary;

pub fn summary_in(st: &Station) -> Summary
    ensures { result ≡ st.now.summary }
{
    st.summary
}

pub fn row_in(st: &Station, i: usize) -> Row
    requires { i < channels }
    ensures { result ≡ row_at st.now i }
{
    st.rows[i]
}

// The entry of the slot i + 1: the book's slots are numbered from 1.
pub fn entry_in(st: &Station, i: usize) -> Entry
    requires { i < slots }
    ensures { result ≡ entry_at st.now i }
{
    st.book.entries[i]
}
