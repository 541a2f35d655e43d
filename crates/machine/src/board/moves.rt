// Where control goes.
ghost use Rattle.std.specs.Prelude.{◌≡◌, ◌<◌, length, Ok, IfOk, nat_lt};
ghost use Rattle.refusals.specs.declared.Refusal.TheVariants.{StackFull};
ghost use Rattle.machine.specs.Cores.{core_of, pushed};
ghost use Rattle.machine.specs.Moves.{Moves, unless, after, target, holds, way_back, passed, jumped, called, returned, interrupt_returned, entered};

use crate::board::Board;
use crate::stack::{Entry, MOST_ENTRIES};
use crate::step::Moment;
use refusals::Refusal;
use words::codes::Condition;

impl Board {
    // The address after this one, if the image has it.
    pub(crate) fn after(&self, at: Moment) -> Result<usize, Refusal>
        ensures next { result ≡ after at.words (core_of self.now) }
        ensures inside { IfOk result (λ address. address < at.words) }
    {
        self.target(at, 1)
    }

    // The address that an offset leads to, if the image has it.
    fn target(&self, at: Moment, offset: i16) -> Result<usize, Refusal>
        ensures target { result ≡ target at.words offset (core_of self.now) }
        ensures inside { IfOk result (λ address. address < at.words) }
    {
        // No `checked_add_signed`, by which a run takes 13% longer.
        let address = self.pc as i32 + i32::from(offset);
        match usize::try_from(address) {
            Ok(address) if address < at.words => Ok(address),
            _ => Err(Refusal::NextOutside { pc: self.pc }),
        }
    }

    // To the word after this one.
    pub(crate) fn pass(&mut self, at: Moment) -> Result<(), Refusal>
        ensures { Moves (passed at.words (core_of self.old)) (core_of self.old) result (core_of self.new) }
    {
        self.jump(at, 1)
    }

    pub(crate) fn jump(&mut self, at: Moment, offset: i16) -> Result<(), Refusal>
        ensures { Moves (jumped at.words offset (core_of self.old)) (core_of self.old) result (core_of self.new) }
    {
        self.pc = self.target(at, offset)?;
        Ok(())
    }

    pub(crate) fn call(&mut self, at: Moment, offset: i16) -> Result<(), Refusal>
        ensures { Moves (called at.words offset (core_of self.old)) (core_of self.old) result (core_of self.new) }
    {
        let address = self.target(at, offset)?;
        let next = self.after(at)?;
        self.push(next)?;
        self.pc = address;
        Ok(())
    }

    // The address to go on at, with the flags of now, onto the stack.
    fn push(&mut self, address: usize) -> Result<(), Refusal>
        ensures { Moves (unless (nat_lt (length (core_of self.old).stack) 16) (StackFull self.old.pc) (Ok (pushed address (core_of self.old)))) (core_of self.old) result (core_of self.new) }
    {
        if self.stack.depth() >= MOST_ENTRIES {
            return Err(Refusal::StackFull { pc: self.pc });
        }
        let entry = Entry {
            address,
            carry: self.carry,
            zero: self.zero,
        };
        self.stack.push(entry);
        Ok(())
    }

    // The newest entry, if its address is one of the image.
    fn way_back(&self, at: Moment) -> Result<Entry, Refusal>
        ensures entry { result ≡ way_back at.words (core_of self.now) }
        ensures inside { IfOk result (λ entry. entry.address < at.words) }
    {
        match self.stack.top() {
            None => Err(Refusal::StackEmpty { pc: self.pc }),
            Some(entry) if entry.address < at.words => Ok(entry),
            Some(_) => Err(Refusal::NextOutside { pc: self.pc }),
        }
    }

    pub(crate) fn return_from_call(&mut self, at: Moment) -> Result<(), Refusal>
        ensures { Moves (returned at.words (core_of self.old)) (core_of self.old) result (core_of self.new) }
    {
        let entry = self.way_back(at)?;
        self.stack.pop();
        self.pc = entry.address;
        Ok(())
    }

    pub(crate) fn return_from_interrupt(&mut self, at: Moment) -> Result<(), Refusal>
        ensures { Moves (interrupt_returned at.words (core_of self.old)) (core_of self.old) result (core_of self.new) }
    {
        if !self.in_service {
            return Err(Refusal::NotInService { pc: self.pc });
        }
        let entry = self.way_back(at)?;
        self.stack.pop();
        self.set_flags(entry.carry, entry.zero);
        self.in_service = false;
        self.pc = entry.address;
        Ok(())
    }

    // Into the interrupt handler, to come back to this word.
    pub(crate) fn enter(&mut self) -> Result<(), Refusal>
        ensures { Moves (entered (core_of self.old)) (core_of self.old) result (core_of self.new) }
    {
        self.push(self.pc)?;
        self.in_service = true;
        self.pc = 0;
        Ok(())
    }

    pub(crate) fn holds(&self, condition: Condition) -> bool
        ensures { result ≡ holds condition (core_of self.now) }
    {
        match condition {
            Condition::Zero => self.zero,
            Condition::NotZero => !self.zero,
            Condition::Carry => self.carry,
            Condition::NotCarry => !self.carry,
        }
    }
}
