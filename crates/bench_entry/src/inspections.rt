// Inspections that the benchmark times: images of 4,096 words that pass.
ghost use Rattle.std.specs.Prelude.{◌<◌};

use crate::{fill_backward, fill_by, fill_ordinary};
use inspection::inspecting::inspect;
use ledger::owned::OwnedPages;
use ledger::row::Row;
use words::MOST_WORDS;

// An image of ordinary shape: interrupts enabled at address 2, and a store in every sixteen words.
fn fill_busy(image: &mut [u32; MOST_WORDS]) {
    fill_ordinary(image);
    image[2] = 0x2C005;
    for word in image.iter_mut().skip(12).step_by(16) {
        *word = 0x2E12C;
    }
}

// Seventeen blocks of 240 words behind address 1, each of which calls the block before it near its end; the last is the
// main program's.
fn deep_word(address: usize) -> u32
    requires { address < 4096 }
{
    let place = address + 238;
    match (address, place % 240) {
        (0, _) => 0x3A000,
        // Over a gap at address 1917 to the last block.
        (1, _) => 0x3B77C,
        (1917, _) => 0x3B785,
        (_, 230) if place >= 480 => 0x38E2A,
        (_, 231) if place >= 4080 => 0x3B000,
        (_, 231) => 0x39000,
        _ => 0x08110,
    }
}

// Each word goes to the other side of address 1,024, ever nearer, as far as a call in the middle.
fn zigzag_word(address: usize) -> u32 {
    match address {
        0 => 0x3A000,
        1..=1024 => 0x3B000 + (2049 - 2 * address as u32),
        1025 => 0x38400,
        1026..=2048 => 0x3B000 + (6146 - 2 * address as u32),
        2049 => 0x39000,
        _ => 0x08110,
    }
}

// The depth, or 1,000 and the refusal's number: C takes a number.
fn inspected(image: &[u32; MOST_WORDS]) -> u64 {
    let mut rows = [Row::blank(); MOST_WORDS];
    let owned = OwnedPages { first: 0, last: 3 };
    match inspect(image, owned, &mut rows) {
        Ok(passed) => passed.depth() as u64,
        Err(refusal) => 1000 + u64::from(refusal.number()),
    }
}

// The verdict on one of the four images, by its place above: C hands over a number.
#[unsafe(no_mangle)]
pub extern "C" fn bench_inspection(shape: u32) -> u64 {
    let mut image = [0x08110; MOST_WORDS];
    match shape {
        0 => fill_busy(&mut image),
        1 => fill_backward(&mut image),
        2 => fill_by(&mut image, deep_word),
        _ => fill_by(&mut image, zigzag_word),
    }
    inspected(&image)
}
