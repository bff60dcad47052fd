// The calls of `measured`, exported for C: each calls the function of its name there, which says what it does.
#![tactic(auto)]

ghost use Rattle.measured.specs.Parts.{TellsRelative, TellsRead, TellsWrite};
ghost use Rattle.measured.specs.Whole.{SumsUp};

#[unsafe(no_mangle)]
pub extern "C" fn measured_relative(s: &[u8], out: &mut [u8]) -> u64
    ensures { TellsRelative s.now out.old result out.new }
{
    measured::measured_relative(s, out)
}

#[unsafe(no_mangle)]
pub extern "C" fn measured_read(s: &[u8], kind: u8, out: &mut [i32; 8]) -> u64
    ensures { TellsRead s.now kind out.old result out.new }
{
    measured::measured_read(s, kind, out)
}

#[unsafe(no_mangle)]
pub extern "C" fn measured_write(m: u8, kind: u8, v: &[i32; 8], out: &mut [u8]) -> u64
    ensures { TellsWrite m kind v.now out.old result out.new }
{
    measured::measured_write(m, kind, v, out)
}

#[unsafe(no_mangle)]
pub extern "C" fn measured_offers(input: &[u8]) -> u8
    ensures { SumsUp input.now result }
{
    measured::measured_offers(input)
}
