// The records of the eight kinds of string: their words by name, and as a list.
#![tactic(auto)]

mod kinds;
mod named;

pub use kinds::Kind;
pub use named::{
    EvenString, ImmediateWords, OddString, Record, String1, String2, String3, String4, String5,
    String14, even_of, kind_of, list_of, odd_of, record_of, string1_of, string2_of, string3_of,
    string4_of, string5_of,
};
