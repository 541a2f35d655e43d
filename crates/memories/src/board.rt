// Memory on the board: the whole pages of bytes that are lent.
ghost use Rattle.std.specs.Prelude.{◌≡◌, ◌<◌, length, slice_index};
ghost use Rattle.memories.specs.Frames.{BoardFrame, board_frame};
ghost use Rattle.memories.specs.Kinds.{board};
ghost use Rattle.memories.specs.Lengths.{Checks};
ghost use Rattle.memories.specs.Soundness.{filled_sound};

use crate::memory::{MOST_PAGES, Memory, PAGE_BYTES, index_of};
use refusals::Refusal;

#[derive(Drop)]
pub struct BoardMemory<'a> {
    bytes: &'a mut [u8],
}

// Read by a call, since the proof needs that it is a byte, which it does not know of the bytes behind a field.
fn byte_at(bytes: &[u8], index: usize) -> u8
    requires { index < length bytes.now }
    ensures { result ≡ slice_index bytes.now index }
{
    bytes[index]
}

impl<'a> BoardMemory<'a> {
    // Whether the bytes are 1 to 65,536 whole pages.
    pub fn check(bytes: &[u8]) -> Result<(), Refusal>
        ensures { Checks (length bytes.now) result }
    {
        let length = bytes.len();
        if length == 0 || length % PAGE_BYTES != 0 || length > MOST_PAGES * PAGE_BYTES {
            return Err(Refusal::BoardMemoryLength);
        }
        Ok(())
    }

    // Takes the bytes unchecked: those behind the last page that there may be are no cells.
    pub fn new(bytes: &'a mut [u8]) -> BoardMemory<'a>
        ensures held { result.bytes.now ≡ bytes.old }
        ensures lent { result.bytes.ghost_name ≡ bytes.entry.ghost_name }
    {
        BoardMemory { bytes }
    }
}

impl<'a> Memory for BoardMemory<'a> {
    ghost meaning = { board };

    ghost sound = { λ memory. filled_sound _ _ };

    ghost Frame = { BoardFrame };

    ghost frame = { board_frame };

    fn page_count(&self) -> u32 {
        (self.bytes.len() / PAGE_BYTES).min(MOST_PAGES) as u32
    }

    fn peek(&self, page: u16, offset: u8) -> Result<u8, Refusal> {
        let index = index_of(self.page_count(), page, offset)?;
        Ok(byte_at(self.bytes, index))
    }

    fn poke(&mut self, page: u16, offset: u8, byte: u8) -> Result<(), Refusal> {
        let index = index_of(self.page_count(), page, offset)?;
        self.bytes[index] = byte;
        Ok(())
    }
}
