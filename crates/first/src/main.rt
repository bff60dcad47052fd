// A first program: four offers to a fresh station, by two cards, and a line about each answer.
#![tactic(auto)]

use channel::TakenString;
use streams::write_all;
use strings::Refusal;

// The paper's string B: string 1, its data zero, in relative form.
const B: [u8; 11] = [
    0x0F, 0xFF, 0xFF, 0xFF, 0xFF, 0xFF, 0xFF, 0xFF, 0xFF, 0xFB, 0x00,
];

fn main(rt: HostRuntime) {
    let st = station::fresh();
    let first = station::offer(st, 1, 0, 100, &B);
    tell(&rt, first.answer);
    // 14 epochs later it is off the beat of 15
    let second = station::offer(first.station, 1, 0, 114, &B);
    tell(&rt, second.answer);
    // channels 24 to 47 are card two's
    let third = station::offer(second.station, 1, 24, 115, &B);
    tell(&rt, third.answer);
    let fourth = station::offer(third.station, 2, 24, 115, &B);
    tell(&rt, fourth.answer);
}

fn tell<R: Print>(rt: &R, answer: Result<TakenString, Refusal>) {
    match answer {
        Ok(taken) => tell_number(rt, b"taken, string ", taken.m),
        Err(why) => tell_number(rt, b"refused, number ", strings::refusal_number(why)),
    }
}

// What cannot be written is let go.
fn tell_number<R: Print>(rt: &R, text: &[u8], n: u8) {
    let mut digits = [0u8; 20];
    let k = io::decimal(n as u64, &mut digits);
    write_all(rt, text);
    write_all(rt, &digits[..k]);
    write_all(rt, b"\n");
}
