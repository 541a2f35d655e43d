// The machine: the board with its call stack, a step, and a run.
#![tactic(auto)]

pub mod board;
pub mod report;
pub mod stack;
pub mod step;
