// The calls of `lent_queries`, exported for C: each calls the function of its name there, which says what it does.
#![tactic(auto)]

ghost use Rattle.lent_queries.specs.Lent.{TellsSummary, TellsHealth, TellsTallies, TellsEntry, TellsRecord};

use station::Station;

#[unsafe(no_mangle)]
pub extern "C" fn spineyarrow_summary(st: &Station, card: u8, out: &mut [u64]) -> u64
    ensures { TellsSummary st.now card out.old out.new result }
{
    lent_queries::spineyarrow_summary(st, card, out)
}

#[unsafe(no_mangle)]
pub extern "C" fn spineyarrow_health(st: &Station, card: u8, channel: u8) -> u64
    ensures { TellsHealth st.now card channel result }
{
    lent_queries::spineyarrow_health(st, card, channel)
}

#[unsafe(no_mangle)]
pub extern "C" fn spineyarrow_tallies(st: &Station, card: u8, channel: u8, out: &mut [u32]) -> u64
    ensures { TellsTallies st.now card channel out.old out.new result }
{
    lent_queries::spineyarrow_tallies(st, card, channel, out)
}

#[unsafe(no_mangle)]
pub extern "C" fn spineyarrow_entry(st: &Station, card: u8, slot: u8, out: &mut [i32]) -> u64
    ensures { TellsEntry st.now card slot out.old out.new result }
{
    lent_queries::spineyarrow_entry(st, card, slot, out)
}

#[unsafe(no_mangle)]
pub extern "C" fn spineyarrow_record(
    st: &Station,
    card: u8,
    channel: u8,
    words: &mut [i32],
    start: &mut u32,
) -> u64
    ensures { TellsRecord st.now card channel words.old start.old words.new start.new result }
{
    lent_queries::spineyarrow_record(st, card, channel, words, start)
}
