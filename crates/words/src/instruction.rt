// Instructions, decoded from words and encoded as words.
ghost use Rattle.std.specs.Prelude.{◌≡◌};
ghost use Rattle.words.specs.Codec.{Decodes, Encodes, OneInstructionEach, answer_of};
ghost use Rattle.words.specs.Decoding.{instruction_of};

use crate::codes::{Condition, FlagChange, Operation, Rotation, Transfer};
use crate::decoding::instruction_of;
use refusals::Refusal;

// An instruction and its fields: registers and direct numbers are below 32, offsets lie from -2048 to 2047 and count
// from the address of the word itself.
#[derive(Clone, Copy, Debug, PartialEq, Eq)]
pub enum Instruction {
    // Rd and Rb, the result into Rd.
    Register {
        operation: Operation,
        rd: u8,
        rb: u8,
    },
    // Rd and a constant, the result into Rd.
    Immediate {
        operation: Operation,
        rd: u8,
        constant: u8,
    },
    // Rb turned by one bit, into Rd.
    Rotate {
        rotation: Rotation,
        rd: u8,
        rb: u8,
    },
    Flag {
        change: FlagChange,
    },
    // Between Rd and the port or cell that a number in the word names.
    Direct {
        transfer: Transfer,
        rd: u8,
        number: u8,
    },
    // Between Rd and the port or cell that Rb names.
    Indirect {
        transfer: Transfer,
        rd: u8,
        rb: u8,
    },
    BranchIf {
        condition: Condition,
        offset: i16,
    },
    CallIf {
        condition: Condition,
        offset: i16,
    },
    Call {
        offset: i16,
    },
    Return,
    ReturnFromInterrupt,
    Branch {
        offset: i16,
    },
}

impl Instruction {
    // The instruction that a word stands for.
    #[tactic(auto, using(crate::proofs::Codec::one_instruction_each, crate::proofs::Codec::computed_decodes))]
    pub fn decode(word: u32) -> Result<Instruction, Refusal>
        ensures answer { Decodes word result }
        ensures computed { result ≡ answer_of (instruction_of word) }
        ensures law { OneInstructionEach }
    {
        instruction_of(word).ok_or(Refusal::UndefinedWord { pc: 0 })
    }

    // The word that stands for an instruction.
    pub fn encode(&self) -> Result<u32, Refusal>
        ensures { Encodes self.now result }
    {
        if self.is_valid() {
            Ok(self.word())
        } else {
            Err(Refusal::FieldOutOfRange)
        }
    }
}
