// The line symbols of the words on standard input, written to standard output.
use crate::answers::say_short;
use crate::print;
use crate::sky_calls::say_unmade;
use crate::sky_words::{SKY_BYTES, sky_from};
use sky::{Unmade, make_sky};
use streams::{read_full, write_all};

const BLOCK: usize = 4096;

// Reads a block that nobody looks at, and answers how many bytes came.
fn read_on<R: Input>(rt: &R) -> usize {
    let mut block = [0u8; BLOCK];
    read_full(rt, &mut block)
}

// How many bytes are still to come. Nothing says that the input ends, so the blocks are counted up to a
// number that no run reaches.
fn count_rest<R: Input>(rt: &R) -> usize {
    let mut count = 0usize;
    for _ in 0..u64::MAX {
        let got = read_on(rt);
        count = count.wrapping_add(got);
        if got < BLOCK {
            break;
        }
    }
    count
}

// Writes the symbols, or prints why not. It returns nothing and only reads and writes, of which no
// contract can speak: it promises nothing but to end.
pub fn write_sky<R: Input + Print>(rt: &R) {
    let mut words = [0u8; SKY_BYTES];
    let got = read_full(rt, &mut words);
    let count = got.wrapping_add(count_rest(rt));
    if count != SKY_BYTES {
        let mut text = [0u8; 512];
        let n = say_short(&mut text, count);
        print(rt, &mut text, n);
        return;
    }
    let mut out = [0u8; 15000];
    let made = make_sky(sky_from(&words), &mut out);
    write_made(rt, made, &out);
}

fn write_made<R: Print>(rt: &R, made: Result<(), Unmade>, out: &[u8]) {
    match made {
        Ok(()) => {
            write_all(rt, out);
        }
        Err(unmade) => {
            let mut text = [0u8; 512];
            let n = say_unmade(&mut text, unmade);
            print(rt, &mut text, n);
        }
    }
}
