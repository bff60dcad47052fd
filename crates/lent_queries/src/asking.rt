// The calls: card and channel are tested before anything of the station is read, and an output after
// them. A refusal leaves an output as it was.
ghost use Rattle.lent_queries.specs.Lent.{TellsSummary, TellsTallies, TellsEntry, TellsRecord, TellsHealth};

use crate::copying::{entry_in, row_in, summary_in};
use crate::telling::{
    card_number, health_told, put_entry, put_record, put_summary, put_tallies, slot_number, slot_of,
};
use station::{Station, gate_number};

// How many slots of the book are filled, the oldest day and the newest, into three elements. Answers 0;
// or 16 CARD, 12 ROOM.
#[unsafe(no_mangle)]
pub extern "C" fn spineyarrow_summary(st: &Station, card: u8, out: &mut [u64]) -> u64
    ensures { TellsSummary st.now card out.old out.new result }
{
    let shut = card_number(card);
    if 0 < shut {
        return shut;
    }
    put_summary(summary_in(st), out)
}

// The health of the satellite that a channel's record is of: in the next byte 0 unknown, 1 usable, 2 not
// usable. Or 16 CARD, 1 CHANNEL, 15 OWNER.
#[unsafe(no_mangle)]
pub extern "C" fn spineyarrow_health(st: &Station, card: u8, channel: u8) -> u64
    ensures { TellsHealth st.now card channel result }
{
    let shut = gate_number(card, channel);
    if 0 < shut {
        return shut;
    }
    let row = row_in(st, channel as usize);
    let slot = slot_of(row);
    if slot == 0 {
        return 0;
    }
    health_told(row, entry_in(st, slot - 1))
}

// A channel's tallies, into fourteen elements: strings offered, clean, repaired, refused, and the refused
// ones by cause. Answers 0; or 16 CARD, 1 CHANNEL, 15 OWNER, 12 ROOM.
#[unsafe(no_mangle)]
pub extern "C" fn spineyarrow_tallies(st: &Station, card: u8, channel: u8, out: &mut [u32]) -> u64
    ensures { TellsTallies st.now card channel out.old out.new result }
{
    let shut = gate_number(card, channel);
    if 0 < shut {
        return shut;
    }
    put_tallies(row_in(st, channel as usize), out)
}

// The entry of a slot, which are numbered from 1, into thirteen elements: its day, and its twelve words.
// Answers 0; or 16 CARD, 14 SLOT, 12 ROOM, 13 NOTHING.
#[unsafe(no_mangle)]
pub extern "C" fn spineyarrow_entry(st: &Station, card: u8, slot: u8, out: &mut [i32]) -> u64
    ensures { TellsEntry st.now card slot out.old out.new result }
{
    let shut = slot_number(card, slot);
    if 0 < shut {
        return shut;
    }
    put_entry(entry_in(st, slot as usize - 1), out)
}

// A channel's immediate record: its 26 words into as many elements, and the start of its frame. Answers
// 0; or 16 CARD, 1 CHANNEL, 15 OWNER, 12 ROOM, 13 NOTHING.
#[unsafe(no_mangle)]
pub extern "C" fn spineyarrow_record(
    st: &Station,
    card: u8,
    channel: u8,
    words: &mut [i32],
    start: &mut u32,
) -> u64
    ensures { TellsRecord st.now card channel words.old start.old words.new start.new result }
{
    let shut = gate_number(card, channel);
    if 0 < shut {
        return shut;
    }
    put_record(row_in(st, channel as usize), words, start)
}
