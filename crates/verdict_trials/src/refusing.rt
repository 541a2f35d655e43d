// The refusals 5 to 11: each by images of its own, the smaller number where two hold at one address, the lowest address
// of 5 to 9, and then 10 and 11.
use crate::asking::{Case, ZEROED, ask};
use refusals::Refusal;
use std::process::Abort;

// Words that lead outside the image, and words that are no instruction.
const WORDS: [Case; 10] = [
    // b to -1 and to 8, behind the last address.
    (
        [0x3A000, 0x3BFFE, 0, 0, 0, 0, 0, 0],
        (0, 0),
        Err(Refusal::SuccessorOutside { address: 1 }),
    ),
    (
        [0x3A000, 0x3B007, 0, 0, 0, 0, 0, 0],
        (0, 0),
        Err(Refusal::SuccessorOutside { address: 1 }),
    ),
    // bz to 8, and callnc to 8.
    (
        [0x3A000, 0x10000, 0x30006, 0, 0, 0, 0, 0],
        (0, 0),
        Err(Refusal::SuccessorOutside { address: 2 }),
    ),
    (
        [0x3A000, 0x10000, 0x37006, 0, 0, 0, 0, 0],
        (0, 0),
        Err(Refusal::SuccessorOutside { address: 2 }),
    ),
    // At the last address a nop, bz -1 and call -1.
    (
        [0x3A000, 0x3B006, 0, 0, 0, 0, 0, 0x10000],
        (0, 0),
        Err(Refusal::SuccessorOutside { address: 7 }),
    ),
    (
        [0x3A000, 0x3B006, 0, 0, 0, 0, 0, 0x30FFF],
        (0, 0),
        Err(Refusal::SuccessorOutside { address: 7 }),
    ),
    (
        [0x3A000, 0x3B006, 0, 0, 0, 0, 0x39000, 0x38FFF],
        (0, 0),
        Err(Refusal::SuccessorOutside { address: 7 }),
    ),
    // No pattern; add R1,R2 with a bit too many; all eighteen bits.
    (
        [0x3A000, 0x10000, 0x3C000, 0, 0, 0, 0, 0],
        (0, 0),
        Err(Refusal::UndefinedReached { address: 2 }),
    ),
    (
        [0x3A000, 0x08111, 0, 0, 0, 0, 0, 0],
        (0, 0),
        Err(Refusal::UndefinedReached { address: 1 }),
    ),
    (
        [0x3A000, 0x3FFFF, 0, 0, 0, 0, 0, 0],
        (0, 0),
        Err(Refusal::UndefinedReached { address: 1 }),
    ),
];

// Frames that meet, returns out of place, and page registers in the handler.
const FRAMES: [Case; 12] = [
    // call 1 enters address 2 and resumes there: the main program's, then the handler's.
    (
        [0x3A000, 0x38001, 0x3B000, 0, 0, 0, 0, 0],
        (0, 0),
        Err(Refusal::FramesMixed { address: 2 }),
    ),
    (
        [0x38001, 0x2C005, 0x3B000, 0, 0, 0, 0, 0],
        (0, 0),
        Err(Refusal::FramesMixed { address: 1 }),
    ),
    // ret and iret in the main program, and iret in its routine.
    (
        [0x3A000, 0x39000, 0, 0, 0, 0, 0, 0],
        (0, 0),
        Err(Refusal::ReturnMisplaced { address: 1 }),
    ),
    (
        [0x3A000, 0x3A000, 0, 0, 0, 0, 0, 0],
        (0, 0),
        Err(Refusal::ReturnMisplaced { address: 1 }),
    ),
    (
        [0x3A000, 0x38002, 0x3B000, 0x3A000, 0, 0, 0, 0],
        (0, 0),
        Err(Refusal::ReturnMisplaced { address: 3 }),
    ),
    // ret in the handler, and iret in its routine.
    (
        [0x39000, 0x2C005, 0x3B000, 0, 0, 0, 0, 0],
        (0, 0),
        Err(Refusal::ReturnMisplaced { address: 0 }),
    ),
    (
        [0x3B003, 0x2C005, 0x3B000, 0x38002, 0x3A000, 0x3A000, 0, 0],
        (0, 0),
        Err(Refusal::ReturnMisplaced { address: 5 }),
    ),
    // In the handler mov R14,R14, movi R15,0x00, lsp R14,0x00 of a foreign page, import R15,0x00.
    (
        [0x3B003, 0x2C005, 0x3B000, 0x10E70, 0x3A000, 0, 0, 0],
        (0, 0),
        Err(Refusal::PageRegisterWritten { address: 3 }),
    ),
    (
        [0x3B003, 0x2C005, 0x3B000, 0x12F00, 0x3A000, 0, 0, 0],
        (0, 0),
        Err(Refusal::PageRegisterWritten { address: 3 }),
    ),
    (
        [0x3B003, 0x2C005, 0x3B000, 0x2EE05, 0x3A000, 0, 0, 0],
        (3, 3),
        Err(Refusal::PageRegisterWritten { address: 3 }),
    ),
    (
        [0x3B003, 0x2C005, 0x3B000, 0x2EF01, 0x3A000, 0, 0, 0],
        (0, 0),
        Err(Refusal::PageRegisterWritten { address: 3 }),
    ),
    // ror R14,R14 in the handler's routine.
    (
        [
            0x3B003, 0x2C005, 0x3B000, 0x38002, 0x3A000, 0x28E70, 0x39000, 0,
        ],
        (0, 0),
        Err(Refusal::PageRegisterWritten { address: 5 }),
    ),
];

// Recursion, and pages that are not owned.
const DEPTHS_AND_PAGES: [Case; 16] = [
    // A routine that calls itself, and two that call each other.
    (
        [0x3A000, 0x38002, 0x3B000, 0x38000, 0x39000, 0, 0, 0],
        (0, 0),
        Err(Refusal::StackTooDeep),
    ),
    (
        [
            0x3A000, 0x38002, 0x3B000, 0x34002, 0x39000, 0x38FFE, 0x39000, 0,
        ],
        (0, 0),
        Err(Refusal::StackTooDeep),
    ),
    // A handler whose routine calls itself.
    (
        [
            0x3B003, 0x2C005, 0x3B000, 0x38002, 0x3A000, 0x38000, 0x39000, 0,
        ],
        (0, 0),
        Err(Refusal::StackTooDeep),
    ),
    // ssp, lsp, sspi and lspi to page 0.
    (
        [0x3A000, 0x2E12C, 0x3B000, 0, 0, 0, 0, 0],
        (1, 65_535),
        Err(Refusal::PageNotOwned { address: 1 }),
    ),
    (
        [0x3A000, 0x2E12D, 0x3B000, 0, 0, 0, 0, 0],
        (1, 65_535),
        Err(Refusal::PageNotOwned { address: 1 }),
    ),
    (
        [0x3A000, 0x2E12E, 0x3B000, 0, 0, 0, 0, 0],
        (1, 65_535),
        Err(Refusal::PageNotOwned { address: 1 }),
    ),
    (
        [0x3A000, 0x2E12F, 0x3B000, 0, 0, 0, 0, 0],
        (1, 65_535),
        Err(Refusal::PageNotOwned { address: 1 }),
    ),
    // The example, with b -1 at address 4: the call is come to again with any page from 0 to 3.
    (
        [
            0x3A000, 0x12E03, 0x2C005, 0x38002, 0x3BFFF, 0x2E12C, 0x39000, 0,
        ],
        (3, 3),
        Err(Refusal::PageNotOwned { address: 5 }),
    ),
    // Cell 32 of page 3 and then of page 4, where only one of them is owned.
    (
        [
            0x3A000, 0x12120, 0x12E03, 0x2E10E, 0x12E04, 0x2E10E, 0x3B000, 0,
        ],
        (3, 3),
        Err(Refusal::PageNotOwned { address: 5 }),
    ),
    (
        [
            0x3A000, 0x12120, 0x12E03, 0x2E10E, 0x12E04, 0x2E10E, 0x3B000, 0,
        ],
        (4, 4),
        Err(Refusal::PageNotOwned { address: 3 }),
    ),
    // Page 258, by R15 = 1 and R14 = 2.
    (
        [0x3A000, 0x12F01, 0x12E02, 0x2E12C, 0x3B000, 0, 0, 0],
        (259, 300),
        Err(Refusal::PageNotOwned { address: 3 }),
    ),
    (
        [0x3A000, 0x12F01, 0x12E02, 0x2E12C, 0x3B000, 0, 0, 0],
        (0, 257),
        Err(Refusal::PageNotOwned { address: 3 }),
    ),
    // lsp R14,0x00 and andi R14,0x07: pages 0 to 7.
    (
        [0x3A000, 0x2EE05, 0x16E07, 0x2E12C, 0x3B000, 0, 0, 0],
        (0, 6),
        Err(Refusal::PageNotOwned { address: 3 }),
    ),
    // A handler that stores, where the main program has page 3 only after its first word.
    (
        [0x3B004, 0x12E03, 0x2C005, 0x3B000, 0x2E12C, 0x3A000, 0, 0],
        (3, 3),
        Err(Refusal::PageNotOwned { address: 4 }),
    ),
    (
        [0x3B004, 0x12E03, 0x2C005, 0x3B000, 0x2E12C, 0x3A000, 0, 0],
        (0, 2),
        Err(Refusal::PageNotOwned { address: 4 }),
    ),
    // A routine called with page 0 and with page 3.
    (
        [
            0x3A000, 0x38004, 0x12E03, 0x38002, 0x3B000, 0x2E12C, 0x39000, 0,
        ],
        (0, 2),
        Err(Refusal::PageNotOwned { address: 5 }),
    ),
];

// Two causes in one image.
const ORDER: [Case; 12] = [
    // At one address 5 and 6 cannot meet: an undefined word leads nowhere. 5 and 7, 6 and 7, 7 and 8.
    (
        [0x3A000, 0x38001, 0x3BFFD, 0, 0, 0, 0, 0],
        (0, 0),
        Err(Refusal::SuccessorOutside { address: 2 }),
    ),
    (
        [0x3A000, 0x38001, 0x3C000, 0, 0, 0, 0, 0],
        (0, 0),
        Err(Refusal::UndefinedReached { address: 2 }),
    ),
    (
        [0x3A000, 0x38001, 0x39000, 0, 0, 0, 0, 0],
        (0, 0),
        Err(Refusal::FramesMixed { address: 2 }),
    ),
    // 7 and 9; 5 and 9.
    (
        [0x38001, 0x10E70, 0x2C005, 0x3B000, 0, 0, 0, 0],
        (0, 0),
        Err(Refusal::FramesMixed { address: 1 }),
    ),
    (
        [0x3B007, 0x2C005, 0x3B000, 0, 0, 0, 0, 0x10E70],
        (0, 0),
        Err(Refusal::SuccessorOutside { address: 7 }),
    ),
    // 9 at address 0 and 5 at address 2; the same without the 9.
    (
        [0x10E70, 0x2C005, 0x3BFFD, 0, 0, 0, 0, 0],
        (0, 0),
        Err(Refusal::PageRegisterWritten { address: 0 }),
    ),
    (
        [0x3A000, 0x2C005, 0x3BFFD, 0, 0, 0, 0, 0],
        (0, 0),
        Err(Refusal::SuccessorOutside { address: 2 }),
    ),
    // 8 at address 2 and 6 at address 3; 8 at address 2 and recursion.
    (
        [0x3A000, 0x38002, 0x39000, 0x3C000, 0, 0, 0, 0],
        (0, 0),
        Err(Refusal::ReturnMisplaced { address: 2 }),
    ),
    (
        [0x3A000, 0x38002, 0x39000, 0x38000, 0x39000, 0, 0, 0],
        (0, 0),
        Err(Refusal::ReturnMisplaced { address: 2 }),
    ),
    // 11 at address 1 and 6 at address 2.
    (
        [0x3A000, 0x2E12C, 0x3C000, 0, 0, 0, 0, 0],
        (3, 3),
        Err(Refusal::UndefinedReached { address: 2 }),
    ),
    // 11 at address 1 and recursion; then 11 at two addresses.
    (
        [0x3A000, 0x2E12C, 0x38002, 0x3B000, 0x38000, 0x39000, 0, 0],
        (3, 3),
        Err(Refusal::StackTooDeep),
    ),
    (
        [0x3A000, 0x2E12C, 0x2E12D, 0x3B000, 0, 0, 0, 0],
        (3, 3),
        Err(Refusal::PageNotOwned { address: 1 }),
    ),
];

// Each verdict is the given one, and the rows are zeros as far as the image reaches.
fn refused(rt: &impl Abort, cases: &[Case]) {
    for (place, (image, owned, expected)) in cases.iter().enumerate() {
        let (answer, rows) = ask(*image, *owned);
        assert_eq!(rt; (place, answer), (place, *expected));
        assert_eq!(rt; rows, ZEROED);
    }
}

#[test]
fn five_to_eleven(rt: HostRuntime) {
    refused(&rt, &WORDS);
    refused(&rt, &FRAMES);
    refused(&rt, &DEPTHS_AND_PAGES);
    refused(&rt, &ORDER);
}
