// The record of the words that a request brings, in the paper's order. The fields are named here, and
// not made from a list by another crate, so that the string written shows which word each of them holds.
use records::{
    EvenString, Kind, OddString, Record, String1, String2, String3, String4, String5, String14,
};

// The words of a request, as many as the longest kind has.
pub(crate) type Words = [i32; 8];

// The record of a kind, from as many of the words as it has.
pub(crate) fn record_from(k: Kind, w: Words) -> Record {
    match k {
        Kind::One => Record::One(string1_from(w)),
        Kind::Two => Record::Two(string2_from(w)),
        Kind::Three => Record::Three(string3_from(w)),
        Kind::Four => Record::Four(string4_from(w)),
        Kind::Five => Record::Five(string5_from(w)),
        Kind::Even => Record::Even(even_from(w)),
        Kind::Odd => Record::Odd(odd_from(w)),
        Kind::Fourteen => Record::Fourteen(string14_from(w)),
    }
}

pub(crate) fn string1_from(w: Words) -> String1 {
    let [p1, tk, xvel, xacc, x, ..] = w;
    String1 {
        p1,
        tk,
        xvel,
        xacc,
        x,
    }
}

pub(crate) fn string2_from(w: Words) -> String2 {
    let [b, p2, tb, yvel, yacc, y, ..] = w;
    String2 {
        b,
        p2,
        tb,
        yvel,
        yacc,
        y,
    }
}

pub(crate) fn string3_from(w: Words) -> String3 {
    let [p3, gamma, p, l, zvel, zacc, z, ..] = w;
    String3 {
        p3,
        gamma,
        p,
        l,
        zvel,
        zacc,
        z,
    }
}

pub(crate) fn string4_from(w: Words) -> String4 {
    let [tau, dtau, e, p4, ft, nt, n, m] = w;
    String4 {
        tau,
        dtau,
        e,
        p4,
        ft,
        nt,
        n,
        m,
    }
}

pub(crate) fn string5_from(w: Words) -> String5 {
    let [na, tauc, n4, taugps, l, ..] = w;
    String5 {
        na,
        tauc,
        n4,
        taugps,
        l,
    }
}

pub(crate) fn even_from(w: Words) -> EvenString {
    let [c, ma, na, taua, lambda, di, epsilon, ..] = w;
    EvenString {
        c,
        ma,
        na,
        taua,
        lambda,
        di,
        epsilon,
    }
}

pub(crate) fn odd_from(w: Words) -> OddString {
    let [omega, tlambda, dt, dtrate, h, l, ..] = w;
    OddString {
        omega,
        tlambda,
        dt,
        dtrate,
        h,
        l,
    }
}

pub(crate) fn string14_from(w: Words) -> String14 {
    let [b1, b2, kp, ..] = w;
    String14 { b1, b2, kp }
}

// A word has four bytes, in two's complement. Those past the end of the bytes are 0.
pub(crate) fn words_in(s: &[u8]) -> Words {
    let mut words = [0; 8];
    for (word, bytes) in words.iter_mut().zip(s.chunks_exact(4)) {
        *word = i32::from_be_bytes([bytes[0], bytes[1], bytes[2], bytes[3]]);
    }
    words
}
