// The calls of `lent_navigation`, exported for C: each calls the function of its name there, which says what it does.
#![tactic(auto)]

ghost use Rattle.lent_navigation.specs.Lent.{TellsNavigation};

use station::Station;

#[unsafe(no_mangle)]
pub extern "C" fn spineyarrow_navigation(st: &Station, card: u8, channel: u8, out: &mut [u8]) -> u64
    ensures { TellsNavigation st.now card channel out.old out.new result }
{
    lent_navigation::spineyarrow_navigation(st, card, channel, out)
}
