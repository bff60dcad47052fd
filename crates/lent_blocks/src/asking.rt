// What the field at a place of a block asks of a station.
ghost use Rattle.std.specs.Prelude.{◌+◌, ◌≤◌, ◌≡◌, length};
ghost use Rattle.lent_blocks.specs.Asking.{Asks, symbols_at};

use fields::{Field, channel_in, epoch_in, next_at, symbols_in, why_number};

// An offer, a reset, or no call: then the number that C is told, 0 at the end of the block, 3 for a
// remark, or what says no to the field.
#[derive(Clone, Copy)]
pub enum Asked {
    Offer { channel: u8, epoch: u32 },
    Reset { channel: u8 },
    No(u8),
}

pub fn asked_at(block: &[u8], at: usize) -> Asked
    ensures { Asks block.now at result }
{
    let found = next_at(block, at);
    let field = found.field;
    match field {
        Field::End => Asked::No(0),
        Field::Offer(body) => {
            let sixteen = &block[body..body + 16];
            Asked::Offer {
                channel: channel_in(sixteen),
                epoch: epoch_in(sixteen),
            }
        }
        Field::Reset(body) => Asked::Reset {
            channel: block[body],
        },
        Field::Remark => Asked::No(3),
        Field::Refused(why, _) => Asked::No(why_number(why)),
    }
}

// The string in an offer's field, in its place.
pub fn symbols_at(block: &[u8], at: usize) -> &[u8]
    requires { at + 19 ≤ length block.now }
    ensures { result.now ≡ symbols_at block.now at }
{
    symbols_in(&block[at + 3..at + 19])
}
