// What is heard of the bytes that an offer brings: its string, as the check leaves it.
#![tactic(auto)]

ghost use Rattle.std.specs.Prelude.{◌≡◌, length};
ghost use Rattle.hearing.specs.Hears.{Hears};

use strings::{Refusal, Verdict};

// SHAPE by the relative code; DAMAGED and IDLE by the check, which writes the string as it leaves it.
pub fn hear(s: &[u8], out: &mut [u8]) -> Result<Verdict, Refusal>
    requires { length out.old ≡ 11 }
    ensures { Hears s.now out.old result out.new }
{
    let mut plain = [0u8; 11];
    relative::from_relative(s, &mut plain)?;
    strings::check(&plain, out)
}
