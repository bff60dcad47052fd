// Joining, slot by slot.
ghost use Rattle.std.specs.Prelude.{◌≡◌};
ghost use Rattle.sites.specs.Joining.{join_books, site_joined};

use book::{Book, Entry, SLOTS, greater_of};
use station::Station;
use summary::walk_book;

// Two books in one: of each slot the greater entry.
pub fn join_books(a: Book, b: Book) -> Book
    ensures { result ≡ join_books a b }
{
    let first = a.entries;
    let second = b.entries;
    Book {
        entries: greater_of_each(first, second),
    }
}

// The entries of two books, line by line.
fn greater_of_each(first: [Entry; SLOTS], second: [Entry; SLOTS]) -> [Entry; SLOTS]
    ensures { result ≡ (join_books (record { entries = first }) (record { entries = second })).entries }
{
    let mut joined = first;
    for (i, e) in joined.iter_mut().enumerate() {
        *e = greater_of(first[i], second[i]);
    }
    joined
}

// The station with another site's book joined into its own. The summary is made anew, the rows stay.
pub fn join_site(mut st: Station, other: Book) -> Station
    ensures { result ≡ site_joined st other }
{
    let own = st.book;
    let joined = join_books(own, other);
    st.book = joined;
    let entries = joined.entries;
    let summary = walk_book(entries);
    st.summary = summary;
    st
}
