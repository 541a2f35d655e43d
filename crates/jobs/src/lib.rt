// Jobs: a program's words, its owned pages and the ticks to run it on, read from bytes.
#![tactic(auto)]

pub mod job;
pub mod listing;
pub mod reader;
pub mod record;
