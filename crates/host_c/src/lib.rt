// The calls of `host`, exported for C: each calls the function of its name there, which says what it does.
#![tactic(auto)]

ghost use Rattle.host.specs.Host.{TellsCheck, TellsWord, TellsImmediate};

#[unsafe(no_mangle)]
pub extern "C" fn spineyarrow_check(s: &[u8], out: &mut [u8]) -> u32
    ensures { TellsCheck s.now out.old result out.new }
{
    host::spineyarrow_check(s, out)
}

#[unsafe(no_mangle)]
pub extern "C" fn spineyarrow_word(s: &[u8], word: u8, value: &mut f64) -> u32
    ensures { TellsWord s.now word value.old result value.new }
{
    host::spineyarrow_word(s, word, value)
}

#[unsafe(no_mangle)]
pub extern "C" fn spineyarrow_immediate(
    one: &[u8],
    two: &[u8],
    three: &[u8],
    four: &[u8],
    words: &mut [i32; 26],
    numbers: &mut [f64; 12],
) -> u32
    ensures { TellsImmediate one.now two.now three.now four.now words.old numbers.old result words.new numbers.new }
{
    host::spineyarrow_immediate(one, two, three, four, words, numbers)
}
