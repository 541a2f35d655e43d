// The ledger of an image as a table for spreadsheets.
#![tactic(auto)]

pub mod table;
pub mod tabling;
