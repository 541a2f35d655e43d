// Lists of calls: a call of the machine or of its memory as a value, and performing such calls one after another.
#![tactic(auto)]

pub mod answer;
pub mod call;
pub mod performing;
