// The register that an instruction writes.
ghost use Rattle.std.specs.Prelude.{◌≡◌};
ghost use Rattle.facts.specs.Written.{written};

use words::codes::{Operation, Transfer};
use words::instruction::Instruction;

// The register into which the result goes, if there is one.
pub fn written(instruction: Instruction) -> Option<u8>
    ensures { result ≡ written instruction }
{
    match instruction {
        Instruction::Register {
            operation: Operation::Cmp | Operation::Test,
            ..
        }
        | Instruction::Immediate {
            operation: Operation::Cmp | Operation::Test,
            ..
        } => None,
        Instruction::Register { rd, .. }
        | Instruction::Immediate { rd, .. }
        | Instruction::Rotate { rd, .. }
        | Instruction::Direct {
            transfer: Transfer::Import | Transfer::Load,
            rd,
            ..
        }
        | Instruction::Indirect {
            transfer: Transfer::Import | Transfer::Load,
            rd,
            ..
        } => Some(rd),
        _ => None,
    }
}
