// Every way in which a call says no: its number, the value that it returns, and its text.
#![tactic(auto)]

ghost use Rattle.std.specs.Prelude.{◌≡◌, Some};
ghost use Rattle.refusals.specs.Numbers.{number_of, value_of};
ghost use Rattle.refusals.specs.Sentences.{sentence};

use std::fmt;

// In the order of the numbers; `address`, `place` and `pc` are the values that are returned.
#[derive(Clone, Copy, Debug, PartialEq, Eq)]
pub enum Refusal {
    // The image has fewer than 2 or more than 4,096 words.
    ImageLength,
    // The word at `address` is not below 2^18.
    WordTooLarge { address: usize },
    // The first owned page is above the last, or the last above 65,535.
    PageRange,
    // There are fewer rows than words.
    TooFewRows,
    // The word at `address` can be reached, and leads outside the image.
    SuccessorOutside { address: usize },
    // The word at `address` can be reached, and is no instruction.
    UndefinedReached { address: usize },
    // `address` can be reached both in the outer frame and in a routine.
    FramesMixed { address: usize },
    // The word at `address` is ret in an outer frame, or iret outside the handler's outer frame.
    ReturnMisplaced { address: usize },
    // The word at `address` can run in the handler, and writes R14 or R15.
    PageRegisterWritten { address: usize },
    // The program can need more than the 16 stack entries that there are.
    StackTooDeep,
    // The word at `address` can reach a page that is not owned.
    PageNotOwned { address: usize },
    // The memory has no such page.
    NoSuchPage,
    // There are more than 65,536 ticks.
    TooManyTicks,
    // The tick at `place` is not below 512. A lone step has place 0.
    TickTooLarge { place: usize },
    // There are fewer than three load bytes for each word.
    LoadBytesTooShort,
    // The address `pc` lies outside the image.
    PcOutside { pc: usize },
    // The word at `pc` is undefined, or not below 2^18. Decoding a lone word has pc 0.
    UndefinedWord { pc: usize },
    // The word at `pc` is iret, and no interrupt is in service.
    NotInService { pc: usize },
    // The word at `pc` returns, and the call stack is empty.
    StackEmpty { pc: usize },
    // The next address, or the return address to push, lies outside the image.
    NextOutside { pc: usize },
    // There is no room on the call stack for a call or an interrupt at `pc`.
    StackFull { pc: usize },
    // The word at `pc` loads from or stores to a page that the memory lacks.
    MissingPage { pc: usize },
    // There is no room in the export list for the export at `pc`.
    ExportsFull { pc: usize },
    // The record at `place` begins with no known kind.
    UnknownKind { place: usize },
    // The job ends inside the record at `place`.
    RecordCutOff { place: usize },
    // The record at `place` is the 4,097th word or the 4,097th tick.
    TooManyRecords { place: usize },
    // The job has more than 65,535 bytes.
    JobTooLong,
    // The bytes for a board memory are not 1 to 65,536 whole pages.
    BoardMemoryLength,
    // A field of the instruction does not fit its bits.
    FieldOutOfRange,
}

impl Refusal {
    pub fn number(&self) -> u8
        ensures { result ≡ number_of self.now }
    {
        match self {
            Refusal::ImageLength => 1,
            Refusal::WordTooLarge { .. } => 2,
            Refusal::PageRange => 3,
            Refusal::TooFewRows => 4,
            Refusal::SuccessorOutside { .. } => 5,
            Refusal::UndefinedReached { .. } => 6,
            Refusal::FramesMixed { .. } => 7,
            Refusal::ReturnMisplaced { .. } => 8,
            Refusal::PageRegisterWritten { .. } => 9,
            Refusal::StackTooDeep => 10,
            Refusal::PageNotOwned { .. } => 11,
            Refusal::NoSuchPage => 12,
            Refusal::TooManyTicks => 13,
            Refusal::TickTooLarge { .. } => 14,
            Refusal::LoadBytesTooShort => 15,
            Refusal::PcOutside { .. } => 16,
            Refusal::UndefinedWord { .. } => 17,
            Refusal::NotInService { .. } => 18,
            Refusal::StackEmpty { .. } => 19,
            Refusal::NextOutside { .. } => 20,
            Refusal::StackFull { .. } => 21,
            Refusal::MissingPage { .. } => 22,
            Refusal::ExportsFull { .. } => 23,
            Refusal::UnknownKind { .. } => 24,
            Refusal::RecordCutOff { .. } => 25,
            Refusal::TooManyRecords { .. } => 26,
            Refusal::JobTooLong => 26,
            Refusal::BoardMemoryLength => 27,
            Refusal::FieldOutOfRange => 28,
        }
    }

    pub fn value(&self) -> usize
        ensures { result ≡ value_of self.now }
    {
        match self {
            Refusal::WordTooLarge { address }
            | Refusal::SuccessorOutside { address }
            | Refusal::UndefinedReached { address }
            | Refusal::FramesMixed { address }
            | Refusal::ReturnMisplaced { address }
            | Refusal::PageRegisterWritten { address }
            | Refusal::PageNotOwned { address } => *address,
            Refusal::TickTooLarge { place }
            | Refusal::UnknownKind { place }
            | Refusal::TooManyRecords { place }
            | Refusal::RecordCutOff { place } => *place,
            Refusal::PcOutside { pc }
            | Refusal::UndefinedWord { pc }
            | Refusal::NotInService { pc }
            | Refusal::StackEmpty { pc }
            | Refusal::NextOutside { pc }
            | Refusal::StackFull { pc }
            | Refusal::MissingPage { pc }
            | Refusal::ExportsFull { pc } => *pc,
            Refusal::JobTooLong => 65_535,
            Refusal::ImageLength
            | Refusal::PageRange
            | Refusal::TooFewRows
            | Refusal::StackTooDeep
            | Refusal::NoSuchPage
            | Refusal::TooManyTicks
            | Refusal::LoadBytesTooShort
            | Refusal::BoardMemoryLength
            | Refusal::FieldOutOfRange => 0,
        }
    }
}

impl fmt::Display for Refusal {
    ghost output = { λ r. Some (sentence r) };

    fn fmt<W: fmt::Write>(&self, f: &mut fmt::Formatter<W>) -> fmt::Result {
        match self {
            Refusal::ImageLength => write!(
                f,
                "the program has fewer than 2 or more than 4096 words"
            ),
            Refusal::WordTooLarge { address } => write!(
                f,
                "the word at address {address} is not below 262144"
            ),
            Refusal::PageRange => write!(
                f,
                "the first owned page is above the last, or the last above 65535"
            ),
            Refusal::TooFewRows => write!(f, "there are fewer rows than words"),
            Refusal::SuccessorOutside { address } => write!(
                f,
                "the word at address {address} leads outside the program"
            ),
            Refusal::UndefinedReached { address } => write!(
                f,
                "the word at address {address} can be reached and is no instruction"
            ),
            Refusal::FramesMixed { address } => write!(
                f,
                "address {address} can be reached both in the outer frame and in a routine"
            ),
            Refusal::ReturnMisplaced { address } => write!(
                f,
                "the return at address {address} has no frame to leave"
            ),
            Refusal::PageRegisterWritten { address } => write!(
                f,
                "the word at address {address} writes R14 or R15 in the interrupt handler"
            ),
            Refusal::StackTooDeep => write!(f, "the program can need more than 16 stack entries"),
            Refusal::PageNotOwned { address } => write!(
                f,
                "the word at address {address} can reach a page that is not owned"
            ),
            Refusal::NoSuchPage => write!(f, "the memory has no such page"),
            Refusal::TooManyTicks => write!(f, "there are more than 65536 ticks"),
            Refusal::TickTooLarge { place } => write!(
                f,
                "the tick at place {place} is not below 512"
            ),
            Refusal::LoadBytesTooShort => write!(
                f,
                "there are fewer than 3 load bytes for each word"
            ),
            Refusal::PcOutside { pc } => write!(f, "address {pc} lies outside the program"),
            Refusal::UndefinedWord { pc } => write!(
                f,
                "the word at address {pc} is no instruction"
            ),
            Refusal::NotInService { pc } => write!(
                f,
                "iret at address {pc} with no interrupt in service"
            ),
            Refusal::StackEmpty { pc } => write!(
                f,
                "return at address {pc} with an empty call stack"
            ),
            Refusal::NextOutside { pc } => write!(f, "address {pc} leads outside the program"),
            Refusal::StackFull { pc } => write!(f, "the call stack is full at address {pc}"),
            Refusal::MissingPage { pc } => write!(
                f,
                "address {pc} uses a page that the memory lacks"
            ),
            Refusal::ExportsFull { pc } => write!(f, "the export list is full at address {pc}"),
            Refusal::UnknownKind { place } => write!(
                f,
                "the record at byte {place} has an unknown kind"
            ),
            Refusal::RecordCutOff { place } => write!(
                f,
                "the job ends inside the record at byte {place}"
            ),
            Refusal::TooManyRecords { place } => write!(
                f,
                "the record at byte {place} is one word or tick too many: 4096 are allowed"
            ),
            Refusal::JobTooLong => write!(f, "the job has more than 65535 bytes"),
            Refusal::BoardMemoryLength => write!(
                f,
                "board memory needs 1 to 65536 whole pages of 256 bytes"
            ),
            Refusal::FieldOutOfRange => write!(f, "a field of the instruction is out of range"),
        }
    }
}
