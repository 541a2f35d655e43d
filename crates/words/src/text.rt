// Instructions as the maker's guide writes them.
ghost use Rattle.std.specs.Prelude.{◌≡◌, Some};
ghost use Rattle.words.specs.Text.{register_mnemonic, immediate_mnemonic, rotation_mnemonic, flag_mnemonic, transfer_mnemonic, condition_suffix, text};

use crate::codes::{Condition, FlagChange, Operation, Rotation, Transfer};
use crate::instruction::Instruction;
use std::fmt;

// An operation has two spellings, and the immediate one puts its `i` before the `c` of `subic`: so no `Display`.
impl Operation {
    fn register_mnemonic(self) -> &'static str
        ensures { result.now ≡ register_mnemonic self }
    {
        match self {
            Operation::Sub => "sub",
            Operation::Subc => "subc",
            Operation::Add => "add",
            Operation::Addc => "addc",
            Operation::Mov => "mov",
            Operation::And => "and",
            Operation::Or => "or",
            Operation::Xor => "xor",
            Operation::Cmp => "cmp",
            Operation::Test => "test",
        }
    }

    fn immediate_mnemonic(self) -> &'static str
        ensures { result.now ≡ immediate_mnemonic self }
    {
        match self {
            Operation::Sub => "subi",
            Operation::Subc => "subic",
            Operation::Add => "addi",
            Operation::Addc => "addic",
            Operation::Mov => "movi",
            Operation::And => "andi",
            Operation::Or => "ori",
            Operation::Xor => "xori",
            Operation::Cmp => "cmpi",
            Operation::Test => "testi",
        }
    }
}

impl fmt::Display for Rotation {
    ghost output = { λ r. Some (rotation_mnemonic r) };

    fn fmt<W: fmt::Write>(&self, f: &mut fmt::Formatter<W>) -> fmt::Result {
        f.write_str(match self {
            Rotation::Ror => "ror",
            Rotation::Rol => "rol",
            Rotation::Rorc => "rorc",
            Rotation::Rolc => "rolc",
        })
    }
}

impl fmt::Display for FlagChange {
    ghost output = { λ c. Some (flag_mnemonic c) };

    fn fmt<W: fmt::Write>(&self, f: &mut fmt::Formatter<W>) -> fmt::Result {
        f.write_str(match self {
            FlagChange::Clrc => "clrc",
            FlagChange::Setc => "setc",
            FlagChange::Clrz => "clrz",
            FlagChange::Setz => "setz",
            FlagChange::Clri => "clri",
            FlagChange::Seti => "seti",
        })
    }
}

// The direct form; the indirect one adds an `i`.
impl fmt::Display for Transfer {
    ghost output = { λ t. Some (transfer_mnemonic t) };

    fn fmt<W: fmt::Write>(&self, f: &mut fmt::Formatter<W>) -> fmt::Result {
        f.write_str(match self {
            Transfer::Export => "export",
            Transfer::Import => "import",
            Transfer::Store => "ssp",
            Transfer::Load => "lsp",
        })
    }
}

// What follows the `b` or the `call` of a conditional word.
impl fmt::Display for Condition {
    ghost output = { λ c. Some (condition_suffix c) };

    fn fmt<W: fmt::Write>(&self, f: &mut fmt::Formatter<W>) -> fmt::Result {
        f.write_str(match self {
            Condition::Zero => "z",
            Condition::NotZero => "nz",
            Condition::Carry => "c",
            Condition::NotCarry => "nc",
        })
    }
}

impl fmt::Display for Instruction {
    ghost output = { λ i. Some (text i) };

    fn fmt<W: fmt::Write>(&self, f: &mut fmt::Formatter<W>) -> fmt::Result {
        match *self {
            Instruction::Register { operation, rd, rb } => {
                let mnemonic = operation.register_mnemonic();
                write!(f, "{mnemonic} R{rd:02},R{rb:02}")
            }
            Instruction::Immediate {
                operation,
                rd,
                constant,
            } => {
                let mnemonic = operation.immediate_mnemonic();
                write!(f, "{mnemonic} R{rd:02},0x{constant:02X}")
            }
            Instruction::Rotate { rotation, rd, rb } => write!(f, "{rotation} R{rd:02},R{rb:02}"),
            Instruction::Flag { change } => write!(f, "{change}"),
            Instruction::Direct {
                transfer,
                rd,
                number,
            } => write!(f, "{transfer} R{rd:02},0x{number:02X}"),
            Instruction::Indirect { transfer, rd, rb } => {
                write!(f, "{transfer}i R{rd:02},R{rb:02}")
            }
            Instruction::BranchIf { condition, offset } => write!(f, "b{condition} {offset}"),
            Instruction::CallIf { condition, offset } => write!(f, "call{condition} {offset}"),
            Instruction::Call { offset } => write!(f, "call {offset}"),
            Instruction::Return => write!(f, "ret"),
            Instruction::ReturnFromInterrupt => write!(f, "iret"),
            Instruction::Branch { offset } => write!(f, "b {offset}"),
        }
    }
}
