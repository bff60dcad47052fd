// One field of a block, done on a lent station.
ghost use Rattle.std.specs.Prelude.{◌≡◌, ◌+◌};
ghost use Rattle.fields.specs.Fields.{size_at};
ghost use Rattle.lent_blocks.specs.Taking.{TakesLent};

use crate::asking::{Asked, asked_at, symbols_at};
use fields::next_at;
use lent::{spineyarrow_offer, spineyarrow_reset};
use station::Station;

// Does the field at a place, for the card that hands the block over, and tells it in one number: in its
// lowest byte 0 at the end of the block, 1 an offer, 2 a reset, 3 a remark, or what says no to the
// field; above that the numbers of the call's own answer.
#[unsafe(no_mangle)]
pub extern "C" fn spineyarrow_field(st: &mut Station, card: u8, block: &[u8], at: usize) -> u64
    ensures { TakesLent st.old card block.now at st.new result }
{
    let asked = asked_at(block, at);
    match asked {
        Asked::Offer { channel, epoch } => {
            1 + 256 * spineyarrow_offer(st, card, channel, epoch, symbols_at(block, at))
        }
        Asked::Reset { channel } => 2 + 256 * spineyarrow_reset(st, card, channel),
        Asked::No(told) => told as u64,
    }
}

// The place after the field: its own where it is refused, and at the end.
#[unsafe(no_mangle)]
pub extern "C" fn spineyarrow_next(block: &[u8], at: usize) -> usize
    ensures { result ≡ at + size_at block.now at }
{
    next_at(block, at).after
}
