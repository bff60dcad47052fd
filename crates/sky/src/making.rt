// All line symbols of a sky. Every test comes before the first byte is written.
ghost use Rattle.std.specs.Prelude.{◌≡◌, false, ◌≤◌, length};
ghost use Rattle.superframe.specs.Sky.{sky_string};
ghost use Rattle.superframe.specs.Refused.{lowest_bad};
ghost use Rattle.sky.specs.Line.{relative_bytes, sky_lines};
ghost use Rattle.sky.specs.Calls.{MakesSky};

use crate::Unmade;
use crate::line::write_line;
use strings::Refusal;
use superframe::{Sky, in_order, lowest_bad, string_in};

// Writes the 15,000 line symbols of a sky, each 0 or 1.
pub fn make_sky(sky: Sky, out: &mut [u8]) -> Result<(), Unmade>
    ensures { MakesSky sky out.old result out.new }
{
    if out.len() != 15000 {
        return Err(Unmade::Refused(Refusal::Room));
    }
    if !in_order(sky) {
        return Err(Unmade::OutOfOrder);
    }
    let place = lowest_bad(sky);
    if place != 0 {
        return Err(Unmade::Refused(Refusal::Range(place as u8)));
    }
    write_sky(sky, out);
    Ok(())
}

// String i, 1 to 75, in relative form.
fn relative_in(sky: Sky, i: usize) -> [u8; 11]
    requires { (lowest_bad sky 75 ≡ 0) × ((1 ≤ i) × (i ≤ 75)) }
    ensures { result ≡ relative_bytes (sky_string sky i) }
{
    let s = string_in(sky, i);
    let mut out = [0u8; 11];
    let _ = relative::to_relative(&s, &mut out);
    out
}

// The strings that are not refused, one after the other.
fn write_sky(sky: Sky, out: &mut [u8])
    requires { (lowest_bad sky 75 ≡ 0) × (length out.old ≡ 15000) }
    ensures { out.new ≡ sky_lines sky }
{
    for i in 0..75 {
        let s = relative_in(sky, i + 1);
        write_line(&s, out, 200 * i);
    }
}
