// One block of any length from standard input. One field is held at a time.
ghost use Rattle.std.specs.Prelude.{◌≤◌, length};

use crate::block_calls::pass_field;
use crate::cards::CARD_ONE;
use crate::payloads::pair;
use streams::read_full;

// The longest field: tag, length, and a body of 65,535 bytes.
const FIELD: usize = 65538;

// Reads a field, as much of it as there is, and answers how many bytes came.
fn read_field<R: Input>(rt: &R, space: &mut [u8]) -> usize
    requires { 65538 ≤ length space.old }
    ensures { result ≤ length space.new }
{
    let head = read_full(rt, &mut space[0..3]);
    if head < 3 {
        return head;
    }
    let size = pair(space[1], space[2]);
    3 + read_full(rt, &mut space[3..3 + size])
}

// Hands the block to a fresh station, for card one, and prints a line for each of its calls and one for
// its end. What is read begins with the field, so that it does not matter how much of the block went
// before, but for the place that is told. It returns nothing and only reads and writes, of which no
// contract can speak: it promises nothing but to end. Nothing says that the input ends, so the fields
// are counted up to a number that no run reaches.
pub fn list_block<R: Input + Print>(rt: &R) {
    let mut space = [0u8; FIELD];
    let mut st = station::fresh();
    let mut before = 0usize;
    for _ in 0..u64::MAX {
        let got = read_field(rt, &mut space);
        let Some(passed) = pass_field(rt, CARD_ONE, &space[..got], st, 0, before) else {
            return;
        };
        st = passed.station;
        before = before.wrapping_add(passed.next);
    }
}
