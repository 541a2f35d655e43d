// Instruction words: every word there is, the maker's listing and trace, and the edges of each field.
use huigasto::{Condition, FlagChange, Instruction, Operation, Refusal, Rotation, Transfer};
use std::alloc::Global;
use std::process::Abort;
use std::test::Fail;

// Ten operations of two registers and of a register and a constant, four rotations, six flag changes, eight transfers,
// eight conditional words, two unconditional ones and two returns.
const DEFINED: u32 = 10 * 1024 + 10 * 32 * 256 + 4 * 1024 + 6 + 8 * 1024 + 8 * 4096 + 2 * 4096 + 2;

#[test]
fn every_defined_word_comes_back(rt: HostRuntime) {
    let mut defined: u32 = 0;
    for word in 0..0x40000 {
        if let Ok(instruction) = Instruction::decode(word) {
            assert_eq!(rt; instruction.encode(), Ok(word));
            defined = defined.saturating_add(1);
        }
    }
    assert_eq!(rt; defined, DEFINED);
}

// None of the words is an instruction.
fn undefined(rt: &impl Abort, words: &[u32]) {
    for word in words {
        assert_eq!(rt;
            Instruction::decode(*word),
            Err(Refusal::UndefinedWord { pc: 0 })
        );
    }
}

const WIDE: [u32; 6] = [
    0x4_0000,
    0x4_8110,
    0x10_0000,
    0xFF_FFFF,
    0x8000_0000,
    u32::MAX,
];

#[test]
fn wide_words_are_refused(rt: HostRuntime) {
    undefined(&rt, &WIDE);
}

// Each word stands for the instruction that is written so.
fn spelled(rt: &impl Abort, heap: Global, table: &[(u32, &str)]) -> Result<(), Fail> {
    for (word, text) in table {
        let shown = Instruction::decode(*word)?.to_string(heap)?;
        assert_eq!(rt; shown.as_str(), *text);
    }
    Ok(())
}

// The figures of the maker's guide: a listing and the trace of the same program. The listing writes `nop` for the
// second word, and the trace `mov R00,R00`. The listing's first line is left out: see `bit_tables_decide`.
const FIGURES: [(u32, &str); 16] = [
    (0x10000, "mov R00,R00"),
    (0x12055, "movi R00,0x55"),
    (0x12105, "movi R01,0x05"),
    (0x12203, "movi R02,0x03"),
    (0x08110, "add R01,R02"),
    (0x0A101, "addi R01,0x01"),
    (0x10308, "mov R03,R01"),
    (0x10410, "mov R04,R02"),
    (0x12535, "movi R05,0x35"),
    (0x12643, "movi R06,0x43"),
    (0x08628, "add R06,R05"),
    (0x0A613, "addi R06,0x13"),
    (0x10728, "mov R07,R05"),
    (0x10830, "mov R08,R06"),
    (0x12916, "movi R09,0x16"),
    (0x12ADF, "movi R10,0xDF"),
];

#[test]
fn figures_of_the_guide(rt: HostRuntime) -> Result<(), Fail> {
    spelled(&rt, rt.alloc(), &FIGURES)
}

// The guide's listing gives 0x33001 for `b start`, one word ahead; its bit tables make that word a `bnc`, and `b` 0x3B001.
#[test]
fn bit_tables_decide(rt: HostRuntime) {
    let bnc = Instruction::BranchIf {
        condition: Condition::NotCarry,
        offset: 1,
    };
    assert_eq!(rt; Instruction::decode(0x33001), Ok(bnc));
    assert_eq!(rt;
        Instruction::decode(0x3B001),
        Ok(Instruction::Branch { offset: 1 })
    );
}

// One word of each pattern, worked out from the bit tables.
const SAMPLES: [(u32, &str); 26] = [
    (0x00000, "sub R00,R00"),
    (0x05FF8, "subc R31,R31"),
    (0x07F80, "subic R31,0x80"),
    (0x0C110, "addc R01,R02"),
    (0x0E1FF, "addic R01,0xFF"),
    (0x14110, "and R01,R02"),
    (0x1A10F, "ori R01,0x0F"),
    (0x1C110, "xor R01,R02"),
    (0x22E03, "cmpi R14,0x03"),
    (0x27FFF, "testi R31,0xFF"),
    (0x28F08, "ror R15,R01"),
    (0x28F09, "rol R15,R01"),
    (0x28F0A, "rorc R15,R01"),
    (0x29FFB, "rolc R31,R31"),
    (0x2C000, "clrc"),
    (0x2C003, "setz"),
    (0x2C005, "seti"),
    (0x2E0F8, "export R00,0x1F"),
    (0x2E12C, "ssp R01,0x05"),
    (0x2FFFF, "lspi R31,R31"),
    (0x30800, "bz -2048"),
    (0x357FF, "callnz 2047"),
    (0x38FFF, "call -1"),
    (0x39000, "ret"),
    (0x3A000, "iret"),
    (0x3BFFF, "b -1"),
];

#[test]
fn samples_of_every_pattern(rt: HostRuntime) -> Result<(), Fail> {
    spelled(&rt, rt.alloc(), &SAMPLES)
}

// Words that miss a pattern by one bit, and the reserved opcodes.
const UNDEFINED: [u32; 14] = [
    0x00001, 0x08111, 0x24007, 0x28004, 0x28F0F, 0x2A000, 0x2C006, 0x2C008, 0x2D000, 0x39001,
    0x3A800, 0x3C000, 0x3D000, 0x3FFFF,
];

#[test]
fn near_misses_are_refused(rt: HostRuntime) {
    undefined(&rt, &UNDEFINED);
}

// Each instruction with a field just out of range.
const MISFITS: [Instruction; 12] = [
    Instruction::Register {
        operation: Operation::Add,
        rd: 32,
        rb: 0,
    },
    Instruction::Register {
        operation: Operation::Add,
        rd: 0,
        rb: 32,
    },
    Instruction::Immediate {
        operation: Operation::Mov,
        rd: 32,
        constant: 0,
    },
    Instruction::Rotate {
        rotation: Rotation::Ror,
        rd: 255,
        rb: 0,
    },
    Instruction::Rotate {
        rotation: Rotation::Ror,
        rd: 0,
        rb: 255,
    },
    Instruction::Direct {
        transfer: Transfer::Store,
        rd: 0,
        number: 32,
    },
    Instruction::Indirect {
        transfer: Transfer::Load,
        rd: 32,
        rb: 0,
    },
    Instruction::Indirect {
        transfer: Transfer::Load,
        rd: 0,
        rb: 32,
    },
    Instruction::BranchIf {
        condition: Condition::Zero,
        offset: 2048,
    },
    Instruction::CallIf {
        condition: Condition::Carry,
        offset: -2049,
    },
    Instruction::Call { offset: i16::MAX },
    Instruction::Branch { offset: i16::MIN },
];

#[test]
fn fields_out_of_range_are_refused(rt: HostRuntime) {
    for instruction in MISFITS {
        assert_eq!(rt; instruction.encode(), Err(Refusal::FieldOutOfRange));
    }
    assert_eq!(rt;
        Instruction::Flag {
            change: FlagChange::Seti,
        }
        .encode(),
        Ok(0x2C005)
    );
}
