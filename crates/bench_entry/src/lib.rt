// What the benchmark under bench/ calls from C: fixed work over the library, and a checksum of its answers.
#![tactic(auto)]

ghost use Rattle.std.specs.Prelude.{ℕ, ◌<◌, ◌≤◌, length};

use facts::engine::smallest;
use facts::marks::FrameMarks;
use facts::spans::PageSpans;
use machine::board::Board;
use memories::on_chip::OnChip;
use words::MOST_WORDS;

pub mod inspections;

// A loop of ordinary words: arithmetic, logic, rotations, a store and a load, and two branches.
const LOOP: [u32; 18] = [
    0x3A000, 0x12101, 0x12203, 0x08110, 0x0A205, 0x1C308, 0x14410, 0x28519, 0x2E204, 0x2E705,
    0x00628, 0x18730, 0x20110, 0x31002, 0x0A301, 0x28112, 0x10808, 0x3BFF2,
];

// Runs the loop over 65,536 ticks, so many times.
#[unsafe(no_mangle)]
pub extern "C" fn bench_run(rounds: u32) -> u64 {
    let ticks = [0; 65_536];
    let mut board = Board::new();
    let mut memory = OnChip::new();
    let mut cycles: u64 = 0;
    for _ in 0..rounds {
        if let Ok(report) = board.run(&LOOP, &ticks, &mut memory, &mut []) {
            cycles = cycles.wrapping_add(u64::from(report.cycles));
        }
    }
    cycles
}

// The word at an address of an image of ordinary shape: forward code around routines in its middle quarter, a short loop
// and a call of a routine in every sixteen words.
fn ordinary_word(address: usize, words: usize) -> u32
    requires { (address < words) × (words ≤ 4096) }
{
    let first = words * 3 / 8;
    let behind = words * 5 / 8;
    let inside = (first..behind).contains(&address);
    match address % 16 {
        _ if address == 0 => 0x3A000,
        _ if address + 1 == words => 0x3B000,
        _ if address + 1 == first => 0x3B000 + (behind - address) as u32 % 2048,
        15 if inside => 0x39000,
        3 => 0x12E03,
        6 => 0x31FFE,
        9 if !inside => 0x38000 + ((first + behind) / 2 + 4096 - address) as u32 % 4096,
        _ => 0x08110,
    }
}

// Fills an image with the words that a rule gives for its addresses.
fn fill_by<F: Fn(usize) -> u32>(image: &mut [u32], rule: F)
    requires { (address : ℕ) → address < length image.old → F.pre rule address }
{
    for (address, word) in image.iter_mut().enumerate() {
        *word = rule(address);
    }
}

fn fill_ordinary(image: &mut [u32])
    requires { length image.old ≤ 4096 }
{
    let words = image.len();
    fill_by(image, |address| ordinary_word(address, words));
}

// The facts of both kinds over an image, and how many addresses they mark.
fn marked(image: &[u32]) -> u64 {
    if image.len() > MOST_WORDS {
        return 0;
    }
    let mut marks = [FrameMarks::UNMARKED; MOST_WORDS];
    let mut spans = [None; MOST_WORDS];
    smallest(image, &mut marks, 1, FrameMarks::OUTERMOST);
    smallest(image, &mut spans, 1, Some(PageSpans::zero()));
    marks.iter().filter(|fact| fact.is_marked()).count() as u64
}

fn marked_ordinary(image: &mut [u32]) -> u64
    requires { length image.old ≤ 4096 }
{
    fill_ordinary(image);
    marked(image)
}

// Both kinds of fact over an image of ordinary shape with so many words.
#[unsafe(no_mangle)]
pub extern "C" fn bench_ordinary(words: u32) -> u64 {
    let mut image = [0x10000; MOST_WORDS];
    let words = (words as usize).min(MOST_WORDS);
    marked_ordinary(&mut image[0..words])
}

// To the end of the image, and from there each word goes back by one.
fn fill_backward(image: &mut [u32; MOST_WORDS]) {
    image.fill(0x3BFFF);
    image[0] = 0x3A000;
    image[1] = 0x3B7FF;
    image[2048] = 0x307FF;
    image[2049] = 0x3BFFE;
}

// The same over the worst image, of 4,096 words.
#[unsafe(no_mangle)]
pub extern "C" fn bench_worst() -> u64 {
    let mut image = [0; MOST_WORDS];
    fill_backward(&mut image);
    marked(&image)
}
