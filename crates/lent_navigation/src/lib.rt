// The call of a host in C that writes the navigation record of a channel's satellite, by a station which lies
// in the host's memory: it is only read, and of it one row and one entry are copied.
#![tactic(auto)]

mod telling;
mod writing;

pub use writing::spineyarrow_navigation;
