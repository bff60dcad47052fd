// A block, and a line for each of its calls. Of a block that comes alone, see `block_stream`.
use crate::answers::{say_end, say_no_field};
use crate::print;
use crate::station_answers::{say_emptied, say_offered};
use blocks::{Told, hand_over, take_field};
use station::Station;

// The station after a field, and the place of the next.
#[derive(Clone, Copy)]
pub(crate) struct Passed {
    pub(crate) station: Station,
    pub(crate) next: usize,
}

// The lines are those of its fields one by one; the station that is kept is that of the block as a
// whole.
pub(crate) fn block_call<R: Print>(rt: &R, card: u8, block: &[u8], st: Station) -> Station {
    print_fields(rt, card, block, st);
    let handed = hand_over(st, card, block);
    handed.station
}

// Each field but the last moves on in the block, so the count does not end this.
fn print_fields<R: Print>(rt: &R, card: u8, block: &[u8], before: Station) {
    let mut st = before;
    let mut at = 0;
    for _ in 0..u64::MAX {
        let Some(passed) = pass_field(rt, card, block, st, at, 0) else {
            return;
        };
        st = passed.station;
        at = passed.next;
    }
}

// Does the field at a place and prints its line, if it has one. Its place is told from the first byte of
// a whole block, of which `before` were taken before. None where no other field follows.
pub(crate) fn pass_field<R: Print>(
    rt: &R,
    card: u8,
    block: &[u8],
    st: Station,
    at: usize,
    before: usize,
) -> Option<Passed> {
    let taken = take_field(st, card, block, at);
    let told = taken.told;
    print_told(rt, told, before);
    let next = taken.after;
    if next == at {
        return None;
    }
    let station = taken.station;
    Some(Passed { station, next })
}

fn print_told<R: Print>(rt: &R, told: Told, before: usize) {
    let mut text = [0u8; 512];
    let n = match told {
        Told::Remark => return,
        Told::End => say_end(&mut text),
        Told::Offered(answer) => say_offered(&mut text, answer),
        Told::Emptied(answer) => say_emptied(&mut text, answer),
        Told::Refused(why, place) => say_no_field(&mut text, why, before.wrapping_add(place)),
    };
    print(rt, &mut text, n);
}
