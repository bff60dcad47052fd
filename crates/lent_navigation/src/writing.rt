// The call: card and channel are tested before anything of the station is read, and the output last. A
// refusal leaves it as it was.
ghost use Rattle.lent_navigation.specs.Lent.{TellsNavigation};

use crate::telling::put_navigation;
use lent_queries::{entry_in, row_in, slot_of};
use station::{Station, gate_number};

// The RINEX navigation record of a channel's satellite, into 320 bytes: four lines of 79 columns and a line
// feed. In the next byte n, the satellite; the text has the epoch. Or 16 CARD, 1 CHANNEL, 15 OWNER, 13
// NOTHING where the record, string 5 of its frame or the satellite's entry is missing, 10 RANGE with the
// place of NT or N4 in the next byte, 17 LINES.
#[unsafe(no_mangle)]
pub extern "C" fn spineyarrow_navigation(st: &Station, card: u8, channel: u8, out: &mut [u8]) -> u64
    ensures { TellsNavigation st.now card channel out.old out.new result }
{
    let shut = gate_number(card, channel);
    if 0 < shut {
        return shut;
    }
    let row = row_in(st, channel as usize);
    let slot = slot_of(row);
    if slot == 0 {
        return 13;
    }
    put_navigation(row, entry_in(st, slot - 1), out)
}
