// The navigation file program: 16-byte records from standard input, offered to a fresh station for card
// one, and on standard output the header and the records of a RINEX 2.11 GLONASS navigation file.
#![tactic(auto)]

fn main(rt: HostRuntime) {
    navfile::write_file(&rt, 1);
}
