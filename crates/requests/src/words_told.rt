// A record in a line: the words of its kind, in the paper's order. The fields are named here, and not
// taken from a list that another crate makes, so that a line shows which word each of them holds.
ghost use Rattle.std.specs.Prelude.{◌≤◌};

use crate::line::{Text, put_values};
use book::Entry;
use records::{Kind, Record};

// How many words a kind has.
pub(crate) fn count_of(k: Kind) -> usize
    ensures { result ≤ 8 }
{
    match k {
        Kind::One => 5,
        Kind::Two => 6,
        Kind::Three => 7,
        Kind::Four => 8,
        Kind::Five => 5,
        Kind::Even => 7,
        Kind::Odd => 6,
        Kind::Fourteen => 3,
    }
}

// Each word behind a space.
pub(crate) fn put_record(text: &mut Text, at: usize, record: Record) -> usize
    requires { at ≤ 512 }
    ensures { result ≤ 512 }
{
    match record {
        Record::One(r) => put_values(text, at, &[r.p1, r.tk, r.xvel, r.xacc, r.x]),
        Record::Two(r) => put_values(text, at, &[r.b, r.p2, r.tb, r.yvel, r.yacc, r.y]),
        Record::Three(r) => put_values(text, at, &[r.p3, r.gamma, r.p, r.l, r.zvel, r.zacc, r.z]),
        Record::Four(r) => put_values(text, at, &[r.tau, r.dtau, r.e, r.p4, r.ft, r.nt, r.n, r.m]),
        Record::Five(r) => put_values(text, at, &[r.na, r.tauc, r.n4, r.taugps, r.l]),
        Record::Even(r) => put_values(
            text,
            at,
            &[r.c, r.ma, r.na, r.taua, r.lambda, r.di, r.epsilon],
        ),
        Record::Odd(r) => put_values(text, at, &[r.omega, r.tlambda, r.dt, r.dtrate, r.h, r.l]),
        Record::Fourteen(r) => put_values(text, at, &[r.b1, r.b2, r.kp]),
    }
}

// An entry's words: those of its even half, and those of its odd half but for the sender's l, which is
// no part of an entry.
pub(crate) fn put_entry_words(text: &mut Text, at: usize, e: Entry) -> usize
    requires { at ≤ 512 }
    ensures { result ≤ 512 }
{
    let even = put_record(text, at, Record::Even(book::even_words(e)));
    let odd = book::odd_words(e);
    put_values(
        text,
        even,
        &[odd.omega, odd.tlambda, odd.dt, odd.dtrate, odd.h],
    )
}
