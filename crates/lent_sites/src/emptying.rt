// A lent station emptied in its place, row by row: no station is laid on the stack.
ghost use Rattle.lent_sites.specs.Lent.{FreshLent};

use book::empty_book;
use channel::empty_row;
use station::Station;
use summary::Summary;

// Leaves the station as one that has heard nothing, whatever it was.
#[unsafe(no_mangle)]
pub extern "C" fn spineyarrow_fresh(st: &mut Station)
    ensures { FreshLent st.new }
{
    st.rows.fill(empty_row());
    st.book = empty_book();
    st.summary = Summary {
        count: 0,
        oldest: 0,
        newest: 0,
    };
}
