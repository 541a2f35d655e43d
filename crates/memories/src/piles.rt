// Copying at given memories: one over lent bytes, and a pile of three.
ghost use Rattle.std.specs.Prelude.{◌≡◌};
ghost use Rattle.memories.specs.Copies.{Copies};
ghost use Rattle.memories.specs.Frames.{tail};
ghost use Rattle.memories.specs.Kinds.{of_bytes};
ghost use Rattle.memories.specs.Laws.{MemoryLaws};
ghost use Rattle.memories.specs.Piles.{pile, pile_frame, pile_over};

use crate::board::BoardMemory;
use crate::copying::{Cell, copy_cell};
use crate::joined::Joined;
use crate::on_chip::OnChip;
use refusals::Refusal;

// A page on the chip, the board's pages, and another page on the chip.
pub type Pile<'a> = Joined<OnChip, Joined<BoardMemory<'a>, OnChip>>;

// The pages on the chip are zeros at first.
pub fn new_pile<'a>(bytes: &'a mut [u8]) -> Pile<'a>
    ensures { pile result ≡ pile_over bytes.old }
{
    Joined {
        first: OnChip::new(),
        second: Joined {
            first: BoardMemory::new(bytes),
            second: OnChip::new(),
        },
    }
}

// Copies among all the cells of a pile, whichever memory they are in.
pub fn copy_in_pile(memory: &mut Pile<'_>, source: Cell, target: Cell) -> Result<(), Refusal>
    ensures cells { Copies (pile memory.old) source target result (pile memory.new) }
    ensures rest { pile_frame memory.new ≡ pile_frame memory.old }
    ensures laws { MemoryLaws }
{
    copy_cell(memory, source, target)
}

// Copies among the cells of lent bytes, which the lender gets back so.
pub fn copy_lent(bytes: &mut [u8], source: Cell, target: Cell) -> Result<(), Refusal>
    ensures cells { Copies (of_bytes bytes.old) source target result (of_bytes bytes.new) }
    ensures rest { tail bytes.new ≡ tail bytes.old }
{
    let mut memory = BoardMemory::new(bytes);
    copy_cell(&mut memory, source, target)
}
