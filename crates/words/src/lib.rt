// The instruction words of the LatticeMico8: what they mean, how they are read and written.
#![tactic(auto)]

ghost use Rattle.std.specs.Prelude.{◌≤◌, length, Decides};

// How many words an image can have.
pub const MOST_WORDS: usize = 4096;

// Whether an image has as many words as the device takes.
pub fn fits_device(image: &[u32]) -> bool
    ensures { Decides result ((2 ≤ length image.now) × (length image.now ≤ 4096)) }
{
    (2..=MOST_WORDS).contains(&image.len())
}

pub mod codes;
pub mod decoding;
mod encoding;
pub mod instruction;
mod text;
