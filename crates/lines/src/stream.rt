// The listing of standard input on standard output. One block is held at a time.
use crate::printing::print_records;
use station::Station;
use streams::{read_full, write_all};

// 256 records.
const BLOCK: usize = 4096;

// Room for their lines and for the bytes left over, `line_bytes` at most for each.
const TEXT: usize = 8192;

// Reads a block, prints its lines, and answers the station after it. A block that is not full is the
// last, and so is one of which the lines are not written: then it is None.
fn list_block<R: Input + Print>(rt: &R, st: Station) -> Option<Station> {
    let mut input = [0u8; BLOCK];
    let got = read_full(rt, &mut input);
    let mut text = [0u8; TEXT];
    let printed = print_records(st, &input[..got], &mut text);
    let end = printed.end;
    let is_written = write_all(rt, &text[..end]);
    if got < BLOCK || !is_written {
        return None;
    }
    Some(printed.station)
}

// Lists standard input, of any length, into a fresh station. It returns nothing, and a contract cannot
// speak of what is read and written, so it promises only to end. Nothing says that the input ends, so
// the blocks are counted up to a number that no run reaches.
pub fn list_input<R: Input + Print>(rt: &R) {
    let mut st = station::fresh();
    for _ in 0..u64::MAX {
        let Some(next) = list_block(rt, st) else {
            return;
        };
        st = next;
    }
}
