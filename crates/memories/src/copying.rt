// Work on any memory, done by its three calls alone.
ghost use Rattle.std.specs.Prelude.{◌≡◌};
ghost use Rattle.memories.specs.Copies.{Copies};

use crate::memory::Memory;
use refusals::Refusal;

#[derive(Clone, Copy, Debug, PartialEq, Eq)]
pub struct Cell {
    pub page: u16,
    pub offset: u8,
}

// Copies the byte of one cell to another.
pub fn copy_cell<M: Memory>(memory: &mut M, source: Cell, target: Cell) -> Result<(), Refusal>
    ensures cells { Copies (M.meaning memory.old) source target result (M.meaning memory.new) }
    ensures rest { M.frame memory.new ≡ M.frame memory.old }
{
    let byte = memory.peek(source.page, source.offset)?;
    memory.poke(target.page, target.offset, byte)
}
