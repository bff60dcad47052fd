// The navigation file of standard input, on standard output. One block is held at a time.
ghost use Rattle.std.specs.Prelude.{◌≡◌};
ghost use Rattle.navfile.specs.Calls.{fresh_office};

use crate::Office;
use crate::capture::{write_last, write_records};
use crate::header::put_header;
use streams::{read_full, write_all};

// 256 records.
const BLOCK: usize = 4096;

// Room for the lines of each, four of 80 bytes.
const TEXT: usize = 81920;

// Room for those of 48 channels.
const LAST: usize = 15360;

// Three lines of 81 bytes.
const HEADER: usize = 243;

// The office after a block, and whether another may follow. The office is wanted after the last block
// too, for what is due at the end.
#[derive(Clone, Copy)]
struct Turn {
    office: Office,
    more: bool,
}

// An office that has heard nothing and written nothing.
fn fresh_office() -> Office
    ensures { result ≡ fresh_office }
{
    Office {
        station: station::fresh(),
        written: [0u32; 25],
    }
}

fn write_header<R: Print>(rt: &R) {
    let mut text = [0u8; HEADER];
    let end = put_header(&mut text);
    write_all(rt, &text[..end]);
}

// Reads a block and writes the records that are due. A block that is not full is the last.
fn write_block<R: Input + Print>(rt: &R, office: Office, card: u8) -> Turn {
    let mut input = [0u8; BLOCK];
    let got = read_full(rt, &mut input);
    let mut text = [0u8; TEXT];
    let told = write_records(office, card, &input[..got], &mut text);
    let after = told.office;
    let end = told.end;
    let is_written = write_all(rt, &text[..end]);
    Turn {
        office: after,
        more: got == BLOCK && is_written,
    }
}

// Writes what is due at the end of the input.
fn write_end<R: Print>(rt: &R, office: Office, card: u8) {
    let mut text = [0u8; LAST];
    let told = write_last(office, card, &mut text);
    let end = told.end;
    write_all(rt, &text[..end]);
}

// Writes the navigation file of standard input, of any length, offered by a card to a fresh station. It
// returns nothing, and a contract cannot speak of what is read and written, so it promises only to end.
// Nothing says that the input ends, so the blocks are counted up to a number that no run reaches.
pub fn write_file<R: Input + Print>(rt: &R, card: u8) {
    write_header(rt);
    let mut office = fresh_office();
    for _ in 0..u64::MAX {
        let turn = write_block(rt, office, card);
        office = turn.office;
        if !turn.more {
            break;
        }
    }
    write_end(rt, office, card);
}
