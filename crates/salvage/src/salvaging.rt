// The whole file, item by item.
ghost use Rattle.salvage.specs.Writing.{Salvages};

use crate::searching::next_place;
use crate::writing::{put_field, put_stretch};
use crate::{Full, Salvaged};
use fields::size_at;

// Copies what can still be read of the file to the output, and lists the stretches that are skipped, two
// numbers each: first byte and count. It stops before an item for which there is no room.
pub fn salvage(file: &[u8], out: &mut [u8], list: &mut [usize]) -> Salvaged
    ensures { Salvages file.now out.old list.old result out.new list.new }
{
    let mut at = 0;
    let mut w = 0;
    let mut k = 0;
    while at < file.len() {
        let n = size_at(file, at);
        if n == 0 {
            if list.len() / 2 <= k {
                return Salvaged {
                    written: w,
                    stretches: k,
                    ended: Err(Full::List(at)),
                };
            }
            let q = next_place(file, at);
            put_stretch(list, k, at, q - at);
            k += 1;
            at = q;
        } else {
            if out.len() - w < n {
                return Salvaged {
                    written: w,
                    stretches: k,
                    ended: Err(Full::Output(at)),
                };
            }
            put_field(file, at, n, out, w);
            w += n;
            at += n;
        }
    }
    Salvaged {
        written: w,
        stretches: k,
        ended: Ok(()),
    }
}
