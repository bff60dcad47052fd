// The calls of `lent_blocks`, exported for C: each calls the function of its name there, which says what it does.
#![tactic(auto)]

ghost use Rattle.lent_blocks.specs.Taking.{TakesLent};
ghost use Rattle.std.specs.Prelude.{◌≡◌, ◌+◌};
ghost use Rattle.fields.specs.Fields.{size_at};

use station::Station;

#[unsafe(no_mangle)]
pub extern "C" fn spineyarrow_field(st: &mut Station, card: u8, block: &[u8], at: usize) -> u64
    ensures { TakesLent st.old card block.now at st.new result }
{
    lent_blocks::spineyarrow_field(st, card, block, at)
}

#[unsafe(no_mangle)]
pub extern "C" fn spineyarrow_next(block: &[u8], at: usize) -> usize
    ensures { result ≡ at + size_at block.now at }
{
    lent_blocks::spineyarrow_next(block, at)
}
