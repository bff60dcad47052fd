// Standard input salvaged to standard output. One window of it is held at a time.
ghost use Rattle.std.specs.Prelude.{◌≡◌, ◌+◌, ◌≤◌, IfSome, length, take, drop};
ghost use Rattle.windows.specs.Held.{Holds, Follows, Passing};

use crate::window::salvage_window;
use crate::{Stands, Turn, Wanted};
use streams::{read_full, write_all};

// 256 KiB. What is not passed of it stays for the next turn.
const WINDOW: usize = 262144;

// As much again: before the goal of a window no field and no record wants for room.
const OUT: usize = 262144;

// No file is as long as this, so that every place in it is a number of 64 bits.
const LIMIT: usize = 9223372036854775808;

// The place in the file of the window's first byte, how many bytes of the window are there, and where the
// work stands.
#[derive(Clone, Copy)]
struct Held {
    first: usize,
    count: usize,
    stands: Stands,
}

// What is wanted of standard input, of any length. It returns nothing, and a contract cannot speak of
// what is read and written, so it promises only to end: a turn that passes no byte is the last.
pub fn salvage_input<R: Input + Print>(rt: &R, wanted: Wanted) {
    let mut window = [0u8; WINDOW];
    let mut out = [0u8; OUT];
    let mut held = Held {
        first: 0,
        count: 0,
        stands: Stands::Between,
    };
    while held.first < LIMIT {
        let Some(next) = pass_window(rt, wanted, &mut window, &mut out, held) else {
            return;
        };
        held = next;
    }
}

// Fills the window, works on it, and prints. Where the window is not full the file has ended. None where
// there is nothing more to do.
fn pass_window<R: Input + Print>(
    rt: &R,
    wanted: Wanted,
    window: &mut [u8; WINDOW],
    out: &mut [u8; OUT],
    held: Held,
) -> Option<Held>
    requires { Holds 262144 held }
    ensures { IfSome result (Follows 262144 held) }
{
    let filled = fill(rt, window, held.count);
    let last = filled < WINDOW;
    let turn = salvage_window(
        wanted,
        &window[..filled],
        last,
        held.first,
        held.stands,
        out,
    );
    let end = turn.written;
    let is_written = write_all(rt, &out[..end]);
    if !is_written || !is_more(last, filled, turn) {
        return None;
    }
    let count = filled - turn.passed;
    move_down(window, turn.passed, count);
    Some(Held {
        first: held.first + turn.passed,
        count,
        stands: turn.stands,
    })
}

// Reads until the window is full or the file ends, and answers how many bytes are then there.
fn fill<R: Input>(rt: &R, window: &mut [u8], count: usize) -> usize
    requires { count ≤ length window.old }
    ensures { (count ≤ result) × (result ≤ length window.new) }
{
    count + read_full(rt, &mut window[count..])
}

// There is more to do after a turn that passed a byte, but where the last window is passed to its end and
// no stretch is open.
fn is_more(last: bool, filled: usize, turn: Turn) -> bool
    ensures { Passing result turn.passed }
{
    turn.passed != 0 && (!last || turn.passed < filled || !matches!(turn.stands, Stands::Between))
}

// The n bytes from `from` on go to the front.
fn move_down(window: &mut [u8], from: usize, n: usize)
    requires { from + n ≤ length window.old }
    ensures { take n window.new ≡ take n (drop from window.old) }
{
    window.copy_within(from..from + n, 0);
}
