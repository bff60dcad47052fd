// The calls of `lent_sites`, exported for C: each calls the function of its name there, which says what it does.
#![tactic(auto)]

ghost use Rattle.lent_sites.specs.Lent.{FreshLent, JoinsLent, SendsLent};

use station::Station;

#[unsafe(no_mangle)]
pub extern "C" fn spineyarrow_fresh(st: &mut Station)
    ensures { FreshLent st.new }
{
    lent_sites::spineyarrow_fresh(st)
}

#[unsafe(no_mangle)]
pub extern "C" fn spineyarrow_join(st: &mut Station, book: &[u8]) -> u64
    ensures { JoinsLent st.old book.now st.new result }
{
    lent_sites::spineyarrow_join(st, book)
}

#[unsafe(no_mangle)]
pub extern "C" fn spineyarrow_book(st: &Station, out: &mut [u8]) -> u64
    ensures { SendsLent st.now out.old out.new result }
{
    lent_sites::spineyarrow_book(st, out)
}
