// Standard input and standard output, as the programs use them: a buffer filled, a text written whole.
#![tactic(auto)]

ghost use Rattle.std.specs.Prelude.{◌≤◌};
ghost use Rattle.io.specs.Counts.{IsPrefixLen};

use std::io::Read;

// Reads until buf is full, the input ends or a read fails, and answers how many bytes it put at the start of
// buf. On an empty buf it makes no call.
pub fn read_full<R: Input>(rt: &R, buf: &mut [u8]) -> usize
    ensures { IsPrefixLen result buf.new }
{
    let mut reader = rt.reader();
    fill(&mut reader, buf)
}

// Fills buf from a reader, until it is full, the input ends or a read fails.
fn fill<R: Read>(reader: &mut R, buf: &mut [u8]) -> usize
    ensures { IsPrefixLen result buf.new }
{
    let mut done = 0;
    while done < buf.len() {
        let n = reader.read(&mut buf[done..]).unwrap_or(0);
        if n == 0 {
            break;
        }
        done += n;
    }
    done
}

// Writes all of buf and answers true, or false where a write fails, when some of buf may have been written.
pub fn write_all<R: Print>(rt: &R, buf: &[u8]) -> bool {
    rt.write_all(buf).is_ok()
}
