// The refusals 1 to 4: both edges of each limit, their order, and that they leave every row as it was.
use crate::asking::{BLANK, NONE, OUTER, Verdict, stale, told, verdict};
use inspection::inspecting::inspect;
use ledger::owned::OwnedPages;
use ledger::row::Row;
use refusals::Refusal;

// An image, how many of its words and of ten rows are given, the owned pages, the verdict, and how many rows stay.
type Trial = ([u32; 8], (usize, usize), (u32, u32), Verdict, usize);

// b 0 at address 1; nothing else is reached.
const IDLE: [u32; 8] = [0x3A000, 0x3B000, 0, 0, 0, 0, 0, 0];

// The same with words of eighteen bits, and with words of more.
const LARGEST: [u32; 8] = [0x3A000, 0x3B000, 0, 0, 0x3FFFF, 0, 0x3FFFF, 0];

const LARGER: [u32; 8] = [0x3A000, 0x3B000, 0, 0, 0x40000, 0, 0x40000, 0];

const LARGE_FIRST: [u32; 8] = [0x40000, 0x3B000, 0, 0, 0, 0, 0, 0xFFFF_FFFF];

// ret at address 1.
const FAULTY: [u32; 8] = [0x3A000, 0x39000, 0, 0, 0, 0, 0, 0];

const TRIALS: [Trial; 21] = [
    // Words.
    (IDLE, (0, 10), (0, 0), Err(Refusal::ImageLength), 10),
    (IDLE, (1, 10), (0, 0), Err(Refusal::ImageLength), 10),
    (IDLE, (2, 10), (0, 0), Ok(0), 8),
    (LARGEST, (8, 10), (0, 0), Ok(0), 2),
    (
        LARGER,
        (8, 10),
        (0, 0),
        Err(Refusal::WordTooLarge { address: 4 }),
        10,
    ),
    (
        LARGE_FIRST,
        (8, 10),
        (0, 0),
        Err(Refusal::WordTooLarge { address: 0 }),
        10,
    ),
    (LARGER, (4, 10), (0, 0), Ok(0), 6),
    // Pages.
    (IDLE, (8, 10), (65_535, 65_535), Ok(0), 2),
    (IDLE, (8, 10), (0, 65_535), Ok(0), 2),
    (IDLE, (8, 10), (0, 65_536), Err(Refusal::PageRange), 10),
    (IDLE, (8, 10), (65_536, 65_536), Err(Refusal::PageRange), 10),
    (IDLE, (8, 10), (3, 3), Ok(0), 2),
    (IDLE, (8, 10), (3, 2), Err(Refusal::PageRange), 10),
    (
        IDLE,
        (8, 10),
        (0, 4_294_967_295),
        Err(Refusal::PageRange),
        10,
    ),
    // Rows.
    (IDLE, (8, 8), (0, 0), Ok(0), 2),
    (IDLE, (8, 7), (0, 0), Err(Refusal::TooFewRows), 10),
    (IDLE, (2, 0), (0, 0), Err(Refusal::TooFewRows), 10),
    // Each before the next: 1 before 2, 2 before 3, 3 before 4, 4 before 8.
    (LARGE_FIRST, (1, 0), (1, 0), Err(Refusal::ImageLength), 10),
    (
        LARGER,
        (8, 7),
        (1, 0),
        Err(Refusal::WordTooLarge { address: 4 }),
        10,
    ),
    (FAULTY, (8, 7), (1, 0), Err(Refusal::PageRange), 10),
    (FAULTY, (8, 7), (0, 0), Err(Refusal::TooFewRows), 10),
];

// How many rows are still as they were made.
fn count_stale(rows: &[Row]) -> usize {
    rows.iter().filter(|row| **row == stale()).count()
}

// The verdict with so many of the rows, and how many of all of them stay.
fn attempt(
    image: &[u32],
    (first, last): (u32, u32),
    count: usize,
    rows: &mut [Row],
) -> (Verdict, usize) {
    let count = count.min(rows.len());
    let answer = verdict(inspect(image, OwnedPages { first, last }, &mut rows[0..count]));
    (answer, count_stale(rows))
}

#[test]
fn one_to_four(rt: HostRuntime) {
    for (place, (image, (words, count), owned, expected, stay)) in TRIALS.iter().enumerate() {
        let words = (*words).min(8);
        let mut rows = [stale(); 10];
        let found = attempt(&image[0..words], *owned, *count, &mut rows);
        assert_eq!(rt; (place, found), (place, (*expected, *stay)));
    }
}

// nops as far as b 0 at address 4,095: one word more is too many, and with one fewer the last nop leads outside.
#[test]
fn the_longest_image(rt: HostRuntime) {
    let owned = OwnedPages { first: 0, last: 0 };
    let mut image = [0x10000; 4097];
    image[4095] = 0x3B000;
    let mut rows = [stale(); 4097];
    assert_eq!(rt;
        verdict(inspect(&image, owned, &mut rows)),
        Err(Refusal::ImageLength)
    );
    assert_eq!(rt; count_stale(&rows), 4097);
    assert_eq!(rt; verdict(inspect(&image[0..4096], owned, &mut rows)), Ok(0));
    assert_eq!(rt; count_stale(&rows), 1);
    assert_eq!(rt; told(rows[4095]), (OUTER, NONE, (0, 0), (0, 0), 0));
    assert_eq!(rt;
        verdict(inspect(&image[0..4095], owned, &mut rows)),
        Err(Refusal::SuccessorOutside { address: 4094 })
    );
    assert_eq!(rt;
        (told(rows[4094]), told(rows[4095])),
        (BLANK, (OUTER, NONE, (0, 0), (0, 0), 0))
    );
}
