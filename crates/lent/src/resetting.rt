// A reset of a channel of a lent station: its row becomes an empty one, in its place.
ghost use Rattle.lent.specs.Lent.{ResetsLent};

use channel::empty_row;
use station::{Station, gate_number};

// Empties a channel's row, its record and its tallies; the book stays. Card and channel are tested as
// those of an offer, and told in the same way, before anything of the station is touched.
#[unsafe(no_mangle)]
pub extern "C" fn spineyarrow_reset(st: &mut Station, card: u8, channel: u8) -> u64
    ensures { ResetsLent st.old card channel st.new result }
{
    let shut = gate_number(card, channel);
    if 0 < shut {
        return shut;
    }
    let i = channel as usize;
    st.rows[i] = empty_row();
    0
}
