// Memories: pages of 256 cells, reached by three calls whatever holds the bytes.
#![tactic(auto)]

pub mod board;
pub mod copying;
pub mod joined;
pub mod memory;
pub mod on_chip;
pub mod piles;
