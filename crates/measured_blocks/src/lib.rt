// The block that bench/ measures, exported for C: beside the offers of `measured` it would be compiled
// together with them, and cost them what they share.
#![tactic(auto)]

ghost use Rattle.measured_blocks.specs.Told.{TellsBlock};

use measured::top_of_slot_1;

// Hands a block to a fresh station, by card one, and answers a byte of its book.
#[unsafe(no_mangle)]
pub extern "C" fn measured_block(block: &[u8]) -> u8
    ensures { TellsBlock block.now result }
{
    let handed = blocks::hand_over(station::fresh(), 1, block);
    let st = handed.station;
    top_of_slot_1(st)
}
