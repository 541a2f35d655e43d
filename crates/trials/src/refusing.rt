// The number, the value and the sentence of each refusal.
use huigasto::{JobError, Refusal, RefusedJob};
use std::test::Fail;

const TABLE: [(Refusal, u8, usize, &str); 29] = [
    (
        Refusal::ImageLength,
        1,
        0,
        "the program has fewer than 2 or more than 4096 words",
    ),
    (
        Refusal::WordTooLarge { address: 8 },
        2,
        8,
        "the word at address 8 is not below 262144",
    ),
    (
        Refusal::PageRange,
        3,
        0,
        "the first owned page is above the last, or the last above 65535",
    ),
    (Refusal::TooFewRows, 4, 0, "there are fewer rows than words"),
    (
        Refusal::SuccessorOutside { address: 12 },
        5,
        12,
        "the word at address 12 leads outside the program",
    ),
    (
        Refusal::UndefinedReached { address: 4 },
        6,
        4,
        "the word at address 4 can be reached and is no instruction",
    ),
    (
        Refusal::FramesMixed { address: 20 },
        7,
        20,
        "address 20 can be reached both in the outer frame and in a routine",
    ),
    (
        Refusal::ReturnMisplaced { address: 1 },
        8,
        1,
        "the return at address 1 has no frame to leave",
    ),
    (
        Refusal::PageRegisterWritten { address: 2 },
        9,
        2,
        "the word at address 2 writes R14 or R15 in the interrupt handler",
    ),
    (
        Refusal::StackTooDeep,
        10,
        0,
        "the program can need more than 16 stack entries",
    ),
    (
        Refusal::PageNotOwned { address: 5 },
        11,
        5,
        "the word at address 5 can reach a page that is not owned",
    ),
    (Refusal::NoSuchPage, 12, 0, "the memory has no such page"),
    (
        Refusal::TooManyTicks,
        13,
        0,
        "there are more than 65536 ticks",
    ),
    (
        Refusal::TickTooLarge { place: 2 },
        14,
        2,
        "the tick at place 2 is not below 512",
    ),
    (
        Refusal::LoadBytesTooShort,
        15,
        0,
        "there are fewer than 3 load bytes for each word",
    ),
    (
        Refusal::PcOutside { pc: 9 },
        16,
        9,
        "address 9 lies outside the program",
    ),
    (
        Refusal::UndefinedWord { pc: 7 },
        17,
        7,
        "the word at address 7 is no instruction",
    ),
    (
        Refusal::NotInService { pc: 1 },
        18,
        1,
        "iret at address 1 with no interrupt in service",
    ),
    (
        Refusal::StackEmpty { pc: 1 },
        19,
        1,
        "return at address 1 with an empty call stack",
    ),
    (
        Refusal::NextOutside { pc: 4095 },
        20,
        4095,
        "address 4095 leads outside the program",
    ),
    (
        Refusal::StackFull { pc: 3 },
        21,
        3,
        "the call stack is full at address 3",
    ),
    (
        Refusal::MissingPage { pc: 5 },
        22,
        5,
        "address 5 uses a page that the memory lacks",
    ),
    (
        Refusal::ExportsFull { pc: 6 },
        23,
        6,
        "the export list is full at address 6",
    ),
    (
        Refusal::UnknownKind { place: 3 },
        24,
        3,
        "the record at byte 3 has an unknown kind",
    ),
    (
        Refusal::RecordCutOff { place: 9 },
        25,
        9,
        "the job ends inside the record at byte 9",
    ),
    (
        Refusal::TooManyRecords { place: 16384 },
        26,
        16384,
        "the record at byte 16384 is one word or tick too many: 4096 are allowed",
    ),
    (
        Refusal::JobTooLong,
        26,
        65535,
        "the job has more than 65535 bytes",
    ),
    (
        Refusal::BoardMemoryLength,
        27,
        0,
        "board memory needs 1 to 65536 whole pages of 256 bytes",
    ),
    (
        Refusal::FieldOutOfRange,
        28,
        0,
        "a field of the instruction is out of range",
    ),
];

#[test]
fn every_refusal(rt: HostRuntime) -> Result<(), Fail> {
    for (refusal, number, value, sentence) in TABLE {
        assert_eq!(rt; refusal.number(), number);
        assert_eq!(rt; refusal.value(), value);
        assert_eq!(rt; refusal.to_string(rt.alloc())?.as_str(), sentence);
    }
    Ok(())
}

// In the words by which `ledger_csv` says why there is no table.
#[test]
fn why_a_job_was_not_read(rt: HostRuntime) -> Result<(), Fail> {
    for (refusal, _, _, sentence) in TABLE {
        let error = JobError::Refused(refusal);
        assert_eq!(rt; error.to_string(rt.alloc())?.as_str(), sentence);
    }
    let error = JobError::OutOfMemory;
    assert_eq!(rt; error.to_string(rt.alloc())?.as_str(), "out of memory");
    Ok(())
}

#[test]
fn a_refused_job(rt: HostRuntime) -> Result<(), Fail> {
    assert_eq!(rt;
        RefusedJob(Refusal::JobTooLong)
            .to_string(rt.alloc())?
            .as_str(),
        "JOB 26 at 65535"
    );
    Ok(())
}
