// One word of the program.
ghost use Rattle.std.specs.Prelude.{◌≡◌, ◌<◌};
ghost use Rattle.words.specs.declared.codes.Transfer.TheVariants.{Export, Import, Store, Load};
ghost use Rattle.words.specs.Encoding.{Valid};
ghost use Rattle.memories.specs.Meaning.{Meaning};
ghost use Rattle.machine.specs.Cores.{core_of};
ghost use Rattle.machine.specs.Steps.{Steps, Plain, transferred, execute};

use crate::board::Board;
use crate::step::{Moment, Stepped};
use memories::memory::Memory;
use refusals::Refusal;
use words::codes::Transfer;
use words::instruction::Instruction;

impl Board {
    fn export(&mut self, at: Moment, rd: u8, offset: u8) -> Result<Stepped, Refusal>
        requires { rd < 32 }
        ensures { (memory : Meaning) → Steps (transferred Export at.words at.room at.tick rd offset (core_of self.old) memory) (core_of self.old) memory result (core_of self.new) memory }
    {
        let next = self.after(at)?;
        if !at.room {
            return Err(Refusal::ExportsFull { pc: self.pc });
        }
        let bytes = [
            self.register(15),
            self.register(14),
            offset,
            self.register(rd),
        ];
        let export = Some(u32::from_be_bytes(bytes));
        self.pc = next;
        Ok(Stepped { cycles: 3, export })
    }

    fn import(&mut self, at: Moment, rd: u8) -> Result<Stepped, Refusal>
        requires { rd < 32 }
        ensures { (memory : Meaning) → Steps (transferred Import at.words at.room at.tick rd 0 (core_of self.old) memory) (core_of self.old) memory result (core_of self.new) memory }
    {
        self.pass(at)?;
        self.set_register(rd, (at.tick % 256) as u8);
        Ok(Stepped::TRANSFER)
    }

    fn store<M: Memory>(
        &mut self,
        at: Moment,
        rd: u8,
        offset: u8,
        memory: &mut M,
    ) -> Result<Stepped, Refusal>
        requires { rd < 32 }
        ensures step { Steps (transferred Store at.words at.room at.tick rd offset (core_of self.old) (M.meaning memory.old)) (core_of self.old) (M.meaning memory.old) result (core_of self.new) (M.meaning memory.new) }
        ensures rest { M.frame memory.new ≡ M.frame memory.old }
    {
        let next = self.after(at)?;
        memory
            .poke(self.page(), offset, self.register(rd))
            .map_err(|_| Refusal::MissingPage { pc: self.pc })?;
        self.pc = next;
        Ok(Stepped::TRANSFER)
    }

    fn load<M: Memory>(
        &mut self,
        at: Moment,
        rd: u8,
        offset: u8,
        memory: &M,
    ) -> Result<Stepped, Refusal>
        requires { rd < 32 }
        ensures { Steps (transferred Load at.words at.room at.tick rd offset (core_of self.old) (M.meaning memory.now)) (core_of self.old) (M.meaning memory.now) result (core_of self.new) (M.meaning memory.now) }
    {
        let next = self.after(at)?;
        let byte = memory
            .peek(self.page(), offset)
            .map_err(|_| Refusal::MissingPage { pc: self.pc })?;
        self.set_register(rd, byte);
        self.pc = next;
        Ok(Stepped::TRANSFER)
    }

    // Between Rd and a port or a cell of the page. In line, where a run comes to it for each such word.
    #[inline(always)]
    fn transfer<M: Memory>(
        &mut self,
        transfer: Transfer,
        rd: u8,
        offset: u8,
        at: Moment,
        memory: &mut M,
    ) -> Result<Stepped, Refusal>
        requires { rd < 32 }
        ensures step { Steps (transferred transfer at.words at.room at.tick rd offset (core_of self.old) (M.meaning memory.old)) (core_of self.old) (M.meaning memory.old) result (core_of self.new) (M.meaning memory.new) }
        ensures rest { M.frame memory.new ≡ M.frame memory.old }
    {
        match transfer {
            Transfer::Export => self.export(at, rd, offset),
            Transfer::Import => self.import(at, rd),
            Transfer::Store => self.store(at, rd, offset, memory),
            Transfer::Load => self.load(at, rd, offset, memory),
        }
    }

    // A word that reaches neither a port nor the memory.
    fn execute_plain(&mut self, instruction: Instruction, at: Moment) -> Result<Stepped, Refusal>
        requires { Valid instruction × Plain instruction }
        ensures { (memory : Meaning) → Steps (execute instruction at.words at.room at.tick (core_of self.old) memory) (core_of self.old) memory result (core_of self.new) memory }
    {
        match instruction {
            Instruction::Register { operation, rd, rb } => {
                self.pass(at)?;
                self.operate(operation, rd, self.register(rb));
            }
            Instruction::Immediate {
                operation,
                rd,
                constant,
            } => {
                self.pass(at)?;
                self.operate(operation, rd, constant);
            }
            Instruction::Rotate { rotation, rd, rb } => {
                self.pass(at)?;
                self.turn(rotation, rd, rb);
            }
            Instruction::Flag { change } => {
                self.pass(at)?;
                self.change_flag(change);
            }
            Instruction::BranchIf { condition, offset } if self.holds(condition) => self.jump(
                at, offset,
            )?,
            Instruction::CallIf { condition, offset } if self.holds(condition) => self.call(
                at, offset,
            )?,
            Instruction::Branch { offset } => self.jump(at, offset)?,
            Instruction::Call { offset } => self.call(at, offset)?,
            Instruction::Return => self.return_from_call(at)?,
            Instruction::ReturnFromInterrupt => self.return_from_interrupt(at)?,
            _ => self.pass(at)?,
        }
        Ok(Stepped::PLAIN)
    }

    pub(crate) fn execute<M: Memory>(
        &mut self,
        instruction: Instruction,
        at: Moment,
        memory: &mut M,
    ) -> Result<Stepped, Refusal>
        requires { Valid instruction }
        ensures step { Steps (execute instruction at.words at.room at.tick (core_of self.old) (M.meaning memory.old)) (core_of self.old) (M.meaning memory.old) result (core_of self.new) (M.meaning memory.new) }
        ensures rest { M.frame memory.new ≡ M.frame memory.old }
    {
        match instruction {
            Instruction::Direct {
                transfer,
                rd,
                number,
            } => self.transfer(transfer, rd, number, at, memory),
            Instruction::Indirect { transfer, rd, rb } => {
                let offset = self.register(rb);
                self.transfer(transfer, rd, offset, at, memory)
            }
            _ => self.execute_plain(instruction, at),
        }
    }
}
