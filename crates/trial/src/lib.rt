// A trial of a passed image: a list of calls on a newly reset board and any memory.
#![tactic(auto)]

pub mod trying;
