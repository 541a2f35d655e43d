// From a word to the instruction that writes it.
ghost use Rattle.std.specs.Prelude.{◌≡◌, ◌^◌, ◌<◌, IfSome};
ghost use Rattle.words.specs.Bits.{bits, InOffsetRange, offset_field};
ghost use Rattle.words.specs.Codec.{Writes};
ghost use Rattle.words.specs.Decoding.{instruction_of};
ghost use Rattle.words.specs.Encoding.{Valid};
ghost use Rattle.words.specs.Patterns.{RegisterPattern, ImmediatePattern, RotatePattern, FlagPattern, TransferPattern, ConditionalPattern, UnconditionalPattern};

use crate::codes::{Condition, FlagChange, Operation, Rotation, Transfer};
use crate::instruction::Instruction;

// Bits 12 to 8. Each field has a function: with const parameters its bits would stand at every call instead of here.
fn rd_field(word: u32) -> u8
    ensures { result ≡ bits 12 8 word }
{
    ((word >> 8) % 32) as u8
}

// Bits 7 to 3.
fn rb_field(word: u32) -> u8
    ensures { result ≡ bits 7 3 word }
{
    ((word >> 3) % 32) as u8
}

// Bits 7 to 0.
fn constant_field(word: u32) -> u8
    ensures { result ≡ bits 7 0 word }
{
    (word % 256) as u8
}

// Bits 11 to 0, read as two's complement.
fn offset_field(word: u32) -> i16
    ensures { InOffsetRange result × (offset_field result ≡ bits 11 0 word) }
{
    let field = (word % 4096) as i16;
    if field < 2048 { field } else { field - 4096 }
}

// Each shape has a function, since the fields differ in name and type.
fn register(word: u32) -> Instruction
    requires { RegisterPattern word × (word < 2 ^ 18) }
    ensures { Writes result word }
{
    let operation = Operation::from_code(word >> 14);
    let rd = rd_field(word);
    let rb = rb_field(word);
    Instruction::Register { operation, rd, rb }
}

fn immediate(word: u32) -> Instruction
    requires { ImmediatePattern word × (word < 2 ^ 18) }
    ensures { Writes result word }
{
    let operation = Operation::from_code(word >> 14);
    let rd = rd_field(word);
    let constant = constant_field(word);
    Instruction::Immediate {
        operation,
        rd,
        constant,
    }
}

fn rotate(word: u32) -> Instruction
    requires { RotatePattern word × (word < 2 ^ 18) }
    ensures { Writes result word }
{
    let rotation = Rotation::from_code(word % 8);
    let rd = rd_field(word);
    let rb = rb_field(word);
    Instruction::Rotate { rotation, rd, rb }
}

fn flag(word: u32) -> Instruction
    requires { FlagPattern word × (word < 2 ^ 18) }
    ensures { Writes result word }
{
    let change = FlagChange::from_code(word % 8);
    Instruction::Flag { change }
}

// Bit 1 chooses the indirect form.
fn transfer(word: u32) -> Instruction
    requires { TransferPattern word × (word < 2 ^ 18) }
    ensures { Writes result word }
{
    let rd = rd_field(word);
    let rb = rb_field(word);
    let code = word % 8;
    if code % 4 < 2 {
        let transfer = Transfer::from_code(code);
        let number = rb;
        Instruction::Direct {
            transfer,
            rd,
            number,
        }
    } else {
        let transfer = Transfer::from_code(code - 2);
        Instruction::Indirect { transfer, rd, rb }
    }
}

// Bit 14 chooses the call.
fn conditional(word: u32) -> Instruction
    requires { ConditionalPattern word × (word < 2 ^ 18) }
    ensures { Writes result word }
{
    let condition = Condition::from_code((word >> 12) % 4);
    let offset = offset_field(word);
    if (word >> 14) % 2 == 0 {
        Instruction::BranchIf { condition, offset }
    } else {
        Instruction::CallIf { condition, offset }
    }
}

fn call(word: u32) -> Instruction
    requires { UnconditionalPattern word × (bits 14 12 word ≡ 0) × (word < 2 ^ 18) }
    ensures { Writes result word }
{
    let offset = offset_field(word);
    Instruction::Call { offset }
}

fn branch(word: u32) -> Instruction
    requires { UnconditionalPattern word × (bits 14 12 word ≡ 3) × (word < 2 ^ 18) }
    ensures { Writes result word }
{
    let offset = offset_field(word);
    Instruction::Branch { offset }
}

// The instruction that a word stands for, if any: opcode ranges, with guards for the low bits.
#[tactic(auto, using(crate::proofs::Codec::writes_computed, crate::proofs::Codec::undefined_computed))]
pub fn instruction_of(word: u32) -> Option<Instruction>
    ensures { (result ≡ instruction_of word) × IfSome result (λ i. Valid i) }
{
    match word {
        0x00000..=0x27FFF if (word >> 13) % 2 == 1 => Some(immediate(word)),
        0x00000..=0x27FFF if word % 8 == 0 => Some(register(word)),
        0x28000..=0x29FFF if word % 8 < 4 => Some(rotate(word)),
        0x2C000..=0x2C005 => Some(flag(word)),
        0x2E000..=0x2FFFF => Some(transfer(word)),
        0x30000..=0x37FFF => Some(conditional(word)),
        0x38000..=0x38FFF => Some(call(word)),
        0x39000 => Some(Instruction::Return),
        0x3A000 => Some(Instruction::ReturnFromInterrupt),
        0x3B000..=0x3BFFF => Some(branch(word)),
        _ => None,
    }
}
