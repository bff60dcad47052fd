// The calls of `lent`, exported for C: each calls the function of its name there, which says what it does.
#![tactic(auto)]

ghost use Rattle.lent.specs.Lent.{OffersLent, ResetsLent};

use station::Station;

#[unsafe(no_mangle)]
pub extern "C" fn spineyarrow_offer(
    st: &mut Station,
    card: u8,
    channel: u8,
    epoch: u32,
    s: &[u8],
) -> u64
    ensures { OffersLent st.old card channel epoch s.now st.new result }
{
    lent::spineyarrow_offer(st, card, channel, epoch, s)
}

#[unsafe(no_mangle)]
pub extern "C" fn spineyarrow_reset(st: &mut Station, card: u8, channel: u8) -> u64
    ensures { ResetsLent st.old card channel st.new result }
{
    lent::spineyarrow_reset(st, card, channel)
}
