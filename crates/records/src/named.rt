// The records of the eight kinds: the words by their names in the ICD, in raw units of the lowest bit.
// tk is hour x 128 + minute x 2 + half minute; H is -7 to 13.
ghost use Rattle.std.specs.Prelude.{◌≡◌};
ghost use Rattle.records.specs.Records.{string1_of, string1_list, string2_of, string2_list, string3_of, string3_list, string4_of, string4_list, string5_of, string5_list, even_of, even_list, odd_of, odd_list, string14_of, string14_list, kind_of, list_of, record_of};

use crate::kinds::Kind;

// The eight kinds have each a struct and its two conversions: they differ in the names of their words, so a
// trait would want the same sixteen bodies.

// String 1.
#[derive(Clone, Copy)]
pub struct String1 {
    pub p1: i32,
    pub tk: i32,
    pub xvel: i32,
    pub xacc: i32,
    pub x: i32,
}

// String 2.
#[derive(Clone, Copy)]
pub struct String2 {
    pub b: i32,
    pub p2: i32,
    pub tb: i32,
    pub yvel: i32,
    pub yacc: i32,
    pub y: i32,
}

// String 3.
#[derive(Clone, Copy)]
pub struct String3 {
    pub p3: i32,
    pub gamma: i32,
    pub p: i32,
    pub l: i32,
    pub zvel: i32,
    pub zacc: i32,
    pub z: i32,
}

// String 4.
#[derive(Clone, Copy)]
pub struct String4 {
    pub tau: i32,
    pub dtau: i32,
    pub e: i32,
    pub p4: i32,
    pub ft: i32,
    pub nt: i32,
    pub n: i32,
    pub m: i32,
}

// String 5. NA is the day of the four years.
#[derive(Clone, Copy)]
pub struct String5 {
    pub na: i32,
    pub tauc: i32,
    pub n4: i32,
    pub taugps: i32,
    pub l: i32,
}

// An even string, 6 to 14: the first half of an almanac entry. nA is the slot.
#[derive(Clone, Copy)]
pub struct EvenString {
    pub c: i32,
    pub ma: i32,
    pub na: i32,
    pub taua: i32,
    pub lambda: i32,
    pub di: i32,
    pub epsilon: i32,
}

// An odd string, 7 to 15: its second half.
#[derive(Clone, Copy)]
pub struct OddString {
    pub omega: i32,
    pub tlambda: i32,
    pub dt: i32,
    pub dtrate: i32,
    pub h: i32,
    pub l: i32,
}

// String 14 of frame 5.
#[derive(Clone, Copy)]
pub struct String14 {
    pub b1: i32,
    pub b2: i32,
    pub kp: i32,
}

// A record of any kind.
#[derive(Clone, Copy)]
pub enum Record {
    One(String1),
    Two(String2),
    Three(String3),
    Four(String4),
    Five(String5),
    Even(EvenString),
    Odd(OddString),
    Fourteen(String14),
}

// The words of strings 1 to 4 together.
#[derive(Clone, Copy)]
pub struct ImmediateWords {
    pub one: String1,
    pub two: String2,
    pub three: String3,
    pub four: String4,
}

pub fn string1_of(v: [i32; 8]) -> String1
    ensures { result ≡ string1_of v }
{
    String1 {
        p1: v[0],
        tk: v[1],
        xvel: v[2],
        xacc: v[3],
        x: v[4],
    }
}

fn string1_list(r: String1) -> [i32; 8]
    ensures { result ≡ string1_list r }
{
    [r.p1, r.tk, r.xvel, r.xacc, r.x, 0, 0, 0]
}

pub fn string2_of(v: [i32; 8]) -> String2
    ensures { result ≡ string2_of v }
{
    String2 {
        b: v[0],
        p2: v[1],
        tb: v[2],
        yvel: v[3],
        yacc: v[4],
        y: v[5],
    }
}

fn string2_list(r: String2) -> [i32; 8]
    ensures { result ≡ string2_list r }
{
    [r.b, r.p2, r.tb, r.yvel, r.yacc, r.y, 0, 0]
}

pub fn string3_of(v: [i32; 8]) -> String3
    ensures { result ≡ string3_of v }
{
    String3 {
        p3: v[0],
        gamma: v[1],
        p: v[2],
        l: v[3],
        zvel: v[4],
        zacc: v[5],
        z: v[6],
    }
}

fn string3_list(r: String3) -> [i32; 8]
    ensures { result ≡ string3_list r }
{
    [r.p3, r.gamma, r.p, r.l, r.zvel, r.zacc, r.z, 0]
}

pub fn string4_of(v: [i32; 8]) -> String4
    ensures { result ≡ string4_of v }
{
    String4 {
        tau: v[0],
        dtau: v[1],
        e: v[2],
        p4: v[3],
        ft: v[4],
        nt: v[5],
        n: v[6],
        m: v[7],
    }
}

fn string4_list(r: String4) -> [i32; 8]
    ensures { result ≡ string4_list r }
{
    [r.tau, r.dtau, r.e, r.p4, r.ft, r.nt, r.n, r.m]
}

pub fn string5_of(v: [i32; 8]) -> String5
    ensures { result ≡ string5_of v }
{
    String5 {
        na: v[0],
        tauc: v[1],
        n4: v[2],
        taugps: v[3],
        l: v[4],
    }
}

fn string5_list(r: String5) -> [i32; 8]
    ensures { result ≡ string5_list r }
{
    [r.na, r.tauc, r.n4, r.taugps, r.l, 0, 0, 0]
}

pub fn even_of(v: [i32; 8]) -> EvenString
    ensures { result ≡ even_of v }
{
    EvenString {
        c: v[0],
        ma: v[1],
        na: v[2],
        taua: v[3],
        lambda: v[4],
        di: v[5],
        epsilon: v[6],
    }
}

fn even_list(r: EvenString) -> [i32; 8]
    ensures { result ≡ even_list r }
{
    [r.c, r.ma, r.na, r.taua, r.lambda, r.di, r.epsilon, 0]
}

pub fn odd_of(v: [i32; 8]) -> OddString
    ensures { result ≡ odd_of v }
{
    OddString {
        omega: v[0],
        tlambda: v[1],
        dt: v[2],
        dtrate: v[3],
        h: v[4],
        l: v[5],
    }
}

fn odd_list(r: OddString) -> [i32; 8]
    ensures { result ≡ odd_list r }
{
    [r.omega, r.tlambda, r.dt, r.dtrate, r.h, r.l, 0, 0]
}

pub fn string14_of(v: [i32; 8]) -> String14
    ensures { result ≡ string14_of v }
{
    String14 {
        b1: v[0],
        b2: v[1],
        kp: v[2],
    }
}

fn string14_list(r: String14) -> [i32; 8]
    ensures { result ≡ string14_list r }
{
    [r.b1, r.b2, r.kp, 0, 0, 0, 0, 0]
}

pub fn kind_of(r: Record) -> Kind
    ensures { result ≡ kind_of r }
{
    match r {
        Record::One(_) => Kind::One,
        Record::Two(_) => Kind::Two,
        Record::Three(_) => Kind::Three,
        Record::Four(_) => Kind::Four,
        Record::Five(_) => Kind::Five,
        Record::Even(_) => Kind::Even,
        Record::Odd(_) => Kind::Odd,
        Record::Fourteen(_) => Kind::Fourteen,
    }
}

pub fn list_of(r: Record) -> [i32; 8]
    ensures { result ≡ list_of r }
{
    match r {
        Record::One(x) => string1_list(x),
        Record::Two(x) => string2_list(x),
        Record::Three(x) => string3_list(x),
        Record::Four(x) => string4_list(x),
        Record::Five(x) => string5_list(x),
        Record::Even(x) => even_list(x),
        Record::Odd(x) => odd_list(x),
        Record::Fourteen(x) => string14_list(x),
    }
}

pub fn record_of(k: Kind, v: [i32; 8]) -> Record
    ensures { result ≡ record_of k v }
{
    match k {
        Kind::One => Record::One(string1_of(v)),
        Kind::Two => Record::Two(string2_of(v)),
        Kind::Three => Record::Three(string3_of(v)),
        Kind::Four => Record::Four(string4_of(v)),
        Kind::Five => Record::Five(string5_of(v)),
        Kind::Even => Record::Even(even_of(v)),
        Kind::Odd => Record::Odd(odd_of(v)),
        Kind::Fourteen => Record::Fourteen(string14_of(v)),
    }
}
