// The calls of `measured_blocks`, exported for C: each calls the function of its name there, which says what it does.
#![tactic(auto)]

ghost use Rattle.measured_blocks.specs.Told.{TellsBlock};

#[unsafe(no_mangle)]
pub extern "C" fn measured_block(block: &[u8]) -> u8
    ensures { TellsBlock block.now result }
{
    measured_blocks::measured_block(block)
}
