// Two memories as one: the first's pages, and the second's behind them.
ghost use Rattle.std.specs.Prelude.{◌≡◌, ◌+◌, ◌<◌, MatchOption};
ghost use Rattle.memories.specs.Frames.{JoinedFrame, cut};
ghost use Rattle.memories.specs.Kinds.{joined};
ghost use Rattle.memories.specs.Soundness.{filled_sound};

use crate::memory::{MOST_PAGES, Memory};
use refusals::Refusal;

#[derive(Drop)]
pub struct Joined<A, B> {
    pub first: A,
    pub second: B,
}

impl<A: Memory, B> Joined<A, B> {
    // The page of the second that a page of the whole is, unless it is one of the first.
    fn page_of_second(&self, page: u16) -> Option<u16>
        ensures { MatchOption result (page < (A.meaning self.now.first).pages) (λ behind. (A.meaning self.now.first).pages + behind ≡ page) }
    {
        let behind = u32::from(page).checked_sub(self.first.page_count())?;
        Some(behind as u16)
    }
}

impl<A: Memory, B: Memory> Memory for Joined<A, B> {
    ghost meaning = { λ memory. joined (A.Memory.meaning memory.first) (B.Memory.meaning memory.second) };

    ghost sound = { λ memory. filled_sound _ _ };

    ghost Frame = { JoinedFrame A.Memory.Frame B.Memory.Frame };

    ghost frame = { λ memory. record { first = A.Memory.frame memory.first; second = B.Memory.frame memory.second; parts = cut (A.Memory.meaning memory.first) (B.Memory.meaning memory.second) } };

    fn page_count(&self) -> u32 {
        (self.first.page_count() + self.second.page_count()).min(MOST_PAGES as u32)
    }

    fn peek(&self, page: u16, offset: u8) -> Result<u8, Refusal> {
        match self.page_of_second(page) {
            None => self.first.peek(page, offset),
            Some(behind) => self.second.peek(behind, offset),
        }
    }

    fn poke(&mut self, page: u16, offset: u8, byte: u8) -> Result<(), Refusal> {
        match self.page_of_second(page) {
            None => self.first.poke(page, offset, byte),
            Some(behind) => self.second.poke(behind, offset, byte),
        }
    }
}
