// Memories: on the chip, on the board, and joined.
use memories::board::BoardMemory;
use memories::joined::Joined;
use memories::memory::Memory;
use memories::on_chip::OnChip;
use refusals::Refusal;

// A pile of four pages: one on the chip, two on the board, one on the chip.
#[test]
fn a_pile_keeps_its_pages_apart(rt: HostRuntime) {
    let mut bytes = [7; 512];
    let board = BoardMemory::new(&mut bytes);
    let mut pile = Joined {
        first: OnChip::new(),
        second: Joined {
            first: board,
            second: OnChip::new(),
        },
    };
    assert_eq!(rt; pile.page_count(), 4);
    assert_eq!(rt; pile.peek(0, 32), Ok(0));
    assert_eq!(rt; pile.peek(2, 32), Ok(7));
    assert_eq!(rt; pile.poke(3, 32, 9), Ok(()));
    assert_eq!(rt; pile.poke(1, 32, 8), Ok(()));
    assert_eq!(rt; pile.peek(3, 32), Ok(9));
    assert_eq!(rt; pile.peek(1, 32), Ok(8));
    assert_eq!(rt; pile.peek(2, 32), Ok(7));
    assert_eq!(rt; pile.poke(4, 0, 1), Err(Refusal::NoSuchPage));
    assert_eq!(rt; pile.peek(4, 0), Err(Refusal::NoSuchPage));
}

#[test]
fn lengths_of_board_memory(rt: HostRuntime) {
    let bytes = [0; 600];
    assert_eq!(rt;
        BoardMemory::check(&bytes[0..0]),
        Err(Refusal::BoardMemoryLength)
    );
    assert_eq!(rt;
        BoardMemory::check(&bytes[0..255]),
        Err(Refusal::BoardMemoryLength)
    );
    assert_eq!(rt; BoardMemory::check(&bytes[0..256]), Ok(()));
    assert_eq!(rt;
        BoardMemory::check(&bytes[0..600]),
        Err(Refusal::BoardMemoryLength)
    );
}
