// From an instruction to the word that it writes.
ghost use Rattle.std.specs.Prelude.{◌≡◌, ◌+◌, ◌*◌, ◌^◌, ◌<◌, Decides};
ghost use Rattle.words.specs.Bits.{InOffsetRange, offset_field};
ghost use Rattle.words.specs.Encoding.{Valid, word_of};

use crate::instruction::Instruction;

fn offset_bits(offset: i16) -> u32
    requires { InOffsetRange offset }
    ensures { result ≡ offset_field offset }
{
    offset.rem_euclid(4096) as u32
}

fn in_offset_range(offset: i16) -> bool
    ensures { Decides result (InOffsetRange offset) }
{
    (-2048..2048).contains(&offset)
}

// Two fields below 32 at bits 12 to 8 and 7 to 3.
fn registers(rd: u8, rb: u8) -> u32
    requires { (rd < 32) × (rb < 32) }
    ensures { result ≡ rd * 2 ^ 8 + rb * 2 ^ 3 }
{
    (u32::from(rd) << 8) + (u32::from(rb) << 3)
}

impl Instruction {
    // Whether every field fits its bits.
    pub(crate) fn is_valid(&self) -> bool
        ensures { Decides result (Valid self.now) }
    {
        match self {
            Instruction::Register { rd, rb, .. }
            | Instruction::Rotate { rd, rb, .. }
            | Instruction::Indirect { rd, rb, .. } => *rd < 32 && *rb < 32,
            // Every constant passes. Without the test the proof, tried, did not close: it knows no bound of the field.
            Instruction::Immediate { rd, constant, .. } => *rd < 32 && *constant <= u8::MAX,
            Instruction::Direct { rd, number, .. } => *rd < 32 && *number < 32,
            Instruction::BranchIf { offset, .. }
            | Instruction::CallIf { offset, .. }
            | Instruction::Call { offset }
            | Instruction::Branch { offset } => in_offset_range(*offset),
            Instruction::Flag { .. } | Instruction::Return | Instruction::ReturnFromInterrupt =>
                true,
        }
    }

    // The word of a valid instruction.
    pub(crate) fn word(&self) -> u32
        requires { Valid self.now }
        ensures { result ≡ word_of self.now }
    {
        match *self {
            Instruction::Register { operation, rd, rb } => ((operation as u32) << 14)
                + registers(rd, rb),
            Instruction::Immediate {
                operation,
                rd,
                constant,
            } => {
                ((operation as u32) << 14) + 0x2000 + (u32::from(rd) << 8) + u32::from(constant)
            }
            Instruction::Rotate { rotation, rd, rb } => 0x28000
                + registers(rd, rb)
                + rotation as u32,
            Instruction::Flag { change } => 0x2C000 + change as u32,
            Instruction::Direct {
                transfer,
                rd,
                number,
            } => 0x2E000 + registers(rd, number) + transfer as u32,
            Instruction::Indirect { transfer, rd, rb } => 0x2E002
                + registers(rd, rb)
                + transfer as u32,
            Instruction::BranchIf { condition, offset } => 0x30000
                + ((condition as u32) << 12)
                + offset_bits(offset),
            Instruction::CallIf { condition, offset } => 0x34000
                + ((condition as u32) << 12)
                + offset_bits(offset),
            Instruction::Call { offset } => 0x38000 + offset_bits(offset),
            Instruction::Return => 0x39000,
            Instruction::ReturnFromInterrupt => 0x3A000,
            Instruction::Branch { offset } => 0x3B000 + offset_bits(offset),
        }
    }
}
