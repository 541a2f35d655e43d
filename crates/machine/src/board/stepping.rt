// One step.
ghost use Rattle.std.specs.Prelude.{◌≡◌, ◌≤◌, length};
ghost use Rattle.machine.specs.Cores.{core_of};
ghost use Rattle.machine.specs.Moves.{interrupts};
ghost use Rattle.machine.specs.Steps.{Steps, step};

use crate::board::Board;
use crate::step::{Moment, Stepped};
use memories::memory::Memory;
use refusals::Refusal;
use words::decoding::instruction_of;

impl Board {
    // Whether this tick brings an interrupt in.
    fn interrupts(&self, tick: u16) -> bool
        ensures { result ≡ interrupts tick (core_of self.now) }
    {
        tick >= 256 && self.enabled && !self.in_service
    }

    // The word at pc, or an interrupt entry; `room` says whether the export list has room. The image is a lent slice, so
    // its length is asked for here, where the moment is made of it.
    pub(crate) fn advance<M: Memory>(
        &mut self,
        image: &[u32],
        room: bool,
        tick: u16,
        memory: &mut M,
    ) -> Result<Stepped, Refusal>
        requires { length image.now ≤ 4096 }
        ensures step { Steps (step image.now room tick (core_of self.old) (M.meaning memory.old)) (core_of self.old) (M.meaning memory.old) result (core_of self.new) (M.meaning memory.new) }
        ensures rest { M.frame memory.new ≡ M.frame memory.old }
    {
        if self.pc >= image.len() {
            return Err(Refusal::PcOutside { pc: self.pc });
        }
        if self.interrupts(tick) {
            self.enter()?;
            return Ok(Stepped::PLAIN);
        }
        let Some(instruction) = instruction_of(image[self.pc]) else {
            return Err(Refusal::UndefinedWord { pc: self.pc });
        };
        let at = Moment {
            words: image.len(),
            room,
            tick,
        };
        self.execute(instruction, at, memory)
    }
}
