// Memory on the chip: one page of its own.
ghost use Rattle.std.specs.Prelude.{◌≡◌, slice_index};
ghost use Rattle.memories.specs.Kinds.{blank, on_chip};
ghost use Rattle.memories.specs.Laws.{MemoryLaws};
ghost use Rattle.memories.specs.Soundness.{filled_sound};

use crate::memory::{Memory, PAGE_BYTES, index_of};
use refusals::Refusal;

#[derive(Drop)]
pub struct OnChip {
    cells: [u8; PAGE_BYTES],
}

impl OnChip {
    // All zeros.
    pub fn new() -> OnChip
        ensures value { on_chip result ≡ blank }
        ensures laws { MemoryLaws }
    {
        OnChip {
            cells: [0; PAGE_BYTES],
        }
    }
}

impl Memory for OnChip {
    ghost meaning = { on_chip };

    ghost sound = { λ memory. filled_sound 1 (λ page offset. slice_index memory.cells offset) };

    ghost Frame = { Unit {0} };

    ghost frame = { λ _. tt };

    fn page_count(&self) -> u32 {
        1
    }

    fn peek(&self, page: u16, offset: u8) -> Result<u8, Refusal> {
        let index = index_of(self.page_count(), page, offset)?;
        Ok(self.cells[index])
    }

    fn poke(&mut self, page: u16, offset: u8, byte: u8) -> Result<(), Refusal> {
        let index = index_of(self.page_count(), page, offset)?;
        self.cells[index] = byte;
        Ok(())
    }
}
