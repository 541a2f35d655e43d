// What a job comes to, its verdict and its run, and the text of both.
#![tactic(auto)]

pub mod carrying;
pub mod outcome;
pub mod reasons;
pub mod reporting;
