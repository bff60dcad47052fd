// The calls on a station that lies in the memory of a host in C, one after the other: specs/Life.antt;
// the same calls by value, specs/ByValue.antt; what holds of them all, specs/Laws.antt. There is no code
// here.
#![tactic(auto)]
