// The ledger of an image: what is recorded for each of its words, and what an image with a ledger never does.
#![tactic(auto)]

pub mod owned;
pub mod row;
pub mod safety;
