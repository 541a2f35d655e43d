// Cells of two pages with one offset, as a passed program stores into them.
use crate::asking::{stale, verdict};
use inspection::inspecting::inspect;
use ledger::owned::OwnedPages;
use machine::board::Board;
use memories::board::BoardMemory;
use memories::memory::Memory;
use std::test::Fail;

// movi R1,0x20; movi R14,0x03; sspi R1,R1; movi R14,0x04; sspi R1,R1; b 0.
const TWO_PAGES: [u32; 7] = [
    0x3A000, 0x12120, 0x12E03, 0x2E10E, 0x12E04, 0x2E10E, 0x3B000,
];

// Three ticks store into page 3 alone.
#[test]
fn one_offset_in_two_pages(rt: HostRuntime) -> Result<(), Fail> {
    let mut bytes = [0; 1280];
    let mut memory = BoardMemory::new(&mut bytes);
    let mut board = Board::new();
    let mut rows = [stale(); 7];
    let owned = OwnedPages { first: 3, last: 4 };
    assert_eq!(rt; verdict(inspect(&TWO_PAGES, owned, &mut rows)), Ok(0));
    board.run(&TWO_PAGES, &[0; 3], &mut memory, &mut [])?;
    assert_eq!(rt; (memory.peek(3, 32)?, memory.peek(4, 32)?), (32, 0));
    board.run(&TWO_PAGES, &[0; 2], &mut memory, &mut [])?;
    assert_eq!(rt; (memory.peek(3, 32)?, memory.peek(4, 32)?), (32, 32));
    Ok(())
}
