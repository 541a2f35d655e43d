// Images that pass, with their depth and the rows of their smallest ledger.
use crate::asking::{BLANK, Case, NONE, OUTER, ROUTINE, STALE, Told, ask};

// An image with its verdict, and its rows.
const LEDGERS: [(Case, [Told; 8]); 6] = [
    // The example: depth 2 by a call and an interrupt; after the call any page from 0 to 3.
    (
        (
            [
                0x3A000, 0x12E03, 0x2C005, 0x38002, 0x3B000, 0x2E12C, 0x39000, 0,
            ],
            (3, 3),
            Ok(2),
        ),
        [
            (NONE, OUTER, (0, 0), (0, 0), 0),
            (OUTER, NONE, (0, 0), (0, 0), 1),
            (OUTER, NONE, (3, 3), (0, 0), 1),
            (OUTER, NONE, (3, 3), (0, 0), 1),
            (OUTER, NONE, (0, 3), (0, 0), 0),
            (ROUTINE, NONE, (3, 3), (0, 0), 0),
            (ROUTINE, NONE, (3, 3), (0, 0), 0),
            BLANK,
        ],
    ),
    // A routine called with page 0 and with page 3.
    (
        (
            [
                0x3A000, 0x38004, 0x12E03, 0x38002, 0x3B000, 0x2E12C, 0x39000, 0,
            ],
            (0, 3),
            Ok(1),
        ),
        [
            BLANK,
            (OUTER, NONE, (0, 0), (0, 0), 1),
            (OUTER, NONE, (0, 3), (0, 0), 1),
            (OUTER, NONE, (3, 3), (0, 0), 1),
            (OUTER, NONE, (0, 3), (0, 0), 0),
            (ROUTINE, NONE, (0, 3), (0, 0), 0),
            (ROUTINE, NONE, (0, 3), (0, 0), 0),
            BLANK,
        ],
    ),
    // A routine of the main program and of the handler.
    (
        (
            [
                0x3B004, 0x2C005, 0x38004, 0x3B000, 0x38002, 0x3A000, 0x10000, 0x39000,
            ],
            (0, 0),
            Ok(3),
        ),
        [
            (NONE, OUTER, (0, 0), (0, 0), 1),
            (OUTER, NONE, (0, 0), (0, 0), 1),
            (OUTER, NONE, (0, 0), (0, 0), 1),
            (OUTER, NONE, (0, 0), (0, 0), 0),
            (NONE, OUTER, (0, 0), (0, 0), 1),
            (NONE, OUTER, (0, 0), (0, 0), 0),
            (ROUTINE, ROUTINE, (0, 0), (0, 0), 0),
            (ROUTINE, ROUTINE, (0, 0), (0, 0), 0),
        ],
    ),
    // The main program's outer frame and a routine of the handler at address 2.
    (
        (
            [0x3B003, 0x2C005, 0x3B000, 0x38FFF, 0x3A000, 0, 0, 0],
            (0, 0),
            Ok(2),
        ),
        [
            (NONE, OUTER, (0, 0), (0, 0), 1),
            (OUTER, NONE, (0, 0), (0, 0), 0),
            (OUTER, ROUTINE, (0, 0), (0, 0), 0),
            (NONE, OUTER, (0, 0), (0, 0), 1),
            (NONE, OUTER, (0, 0), (0, 0), 0),
            BLANK,
            BLANK,
            BLANK,
        ],
    ),
    // A handler that stores to whatever page the main program has.
    (
        (
            [0x3B004, 0x12E03, 0x2C005, 0x3B000, 0x2E12C, 0x3A000, 0, 0],
            (0, 3),
            Ok(1),
        ),
        [
            (NONE, OUTER, (0, 0), (0, 0), 0),
            (OUTER, NONE, (0, 0), (0, 0), 0),
            (OUTER, NONE, (3, 3), (0, 0), 0),
            (OUTER, NONE, (3, 3), (0, 0), 0),
            (NONE, OUTER, (0, 0), (0, 0), 0),
            (NONE, OUTER, (0, 0), (0, 0), 0),
            BLANK,
            BLANK,
        ],
    ),
    // lsp R14,0x00, andi R14,0x07, import R15,0x00, andi R15,0x01.
    (
        (
            [
                0x3A000, 0x2EE05, 0x16E07, 0x2EF01, 0x16F01, 0x2E12C, 0x3B000, 0,
            ],
            (0, 263),
            Ok(0),
        ),
        [
            BLANK,
            (OUTER, NONE, (0, 0), (0, 0), 0),
            (OUTER, NONE, (0, 255), (0, 0), 0),
            (OUTER, NONE, (0, 7), (0, 0), 0),
            (OUTER, NONE, (0, 7), (0, 255), 0),
            (OUTER, NONE, (0, 7), (0, 1), 0),
            (OUTER, NONE, (0, 7), (0, 1), 0),
            BLANK,
        ],
    ),
];

#[test]
fn smallest_ledgers(rt: HostRuntime) {
    for ((image, owned, expected), rows) in LEDGERS {
        let [a, b, c, d, e, f, g, h] = rows;
        let (answer, left) = ask(image, owned);
        assert_eq!(rt; answer, expected);
        assert_eq!(rt; left, [a, b, c, d, e, f, g, h, STALE, STALE]);
    }
}

const PASSES: [Case; 17] = [
    // Edges of the image: b to address 0, and to address 7.
    ([0x3B000, 0x3BFFF, 0, 0, 0, 0, 0, 0], (0, 0), Ok(0)),
    ([0x3A000, 0x3B006, 0, 0, 0, 0, 0, 0x3B000], (0, 0), Ok(0)),
    // Undefined and leading outside, but never reached; all eighteen bits are a word.
    (
        [0x3A000, 0x3B000, 0x3C000, 0x3FFFF, 0, 0, 0, 0x10000],
        (0, 0),
        Ok(0),
    ),
    // seti that is never reached: an interrupt may come, so word 0 is the handler's.
    ([0x3A000, 0x3B000, 0x2C005, 0, 0, 0, 0, 0], (0, 0), Ok(1)),
    // Without seti there is no handler: ret at 0, and a word that writes R14.
    ([0x39000, 0x3B000, 0, 0, 0, 0, 0, 0], (0, 0), Ok(0)),
    (
        [0x3B003, 0x10000, 0x3B000, 0x10E70, 0x3A000, 0, 0, 0],
        (0, 0),
        Ok(0),
    ),
    // cmp R14,R14, testi R15,0x00, export R14,0x00 and ssp R15,0x00 in the handler: none writes its register.
    (
        [
            0x3B003, 0x2C005, 0x3B000, 0x20E70, 0x26F00, 0x2EE00, 0x2EF04, 0x3A000,
        ],
        (0, 0),
        Ok(1),
    ),
    // A loop in a routine is no recursion.
    (
        [0x3A000, 0x38002, 0x3B000, 0x10000, 0x31FFF, 0x39000, 0, 0],
        (0, 0),
        Ok(1),
    ),
    // Exports and imports need no page.
    (
        [0x3A000, 0x2E000, 0x2E001, 0x3B000, 0, 0, 0, 0],
        (3, 3),
        Ok(0),
    ),
    // Cell 32 of page 3 and of page 4.
    (
        [
            0x3A000, 0x12120, 0x12E03, 0x2E10E, 0x12E04, 0x2E10E, 0x3B000, 0,
        ],
        (3, 4),
        Ok(0),
    ),
    // Page 258, by R15 = 1 and R14 = 2; page 65,535; page 0.
    (
        [0x3A000, 0x12F01, 0x12E02, 0x2E12C, 0x3B000, 0, 0, 0],
        (258, 258),
        Ok(0),
    ),
    (
        [0x3A000, 0x12FFF, 0x12EFF, 0x2E12C, 0x3B000, 0, 0, 0],
        (65_535, 65_535),
        Ok(0),
    ),
    ([0x3A000, 0x2E12C, 0x3B000, 0, 0, 0, 0, 0], (0, 0), Ok(0)),
    // Any page at all, where all are owned: import R14,0x00, import R15,0x00.
    (
        [0x3A000, 0x2EE01, 0x2EF01, 0x2E12C, 0x3B000, 0, 0, 0],
        (0, 65_535),
        Ok(0),
    ),
    // lsp R14,0x00 and andi R14,0x07: pages 0 to 7.
    (
        [0x3A000, 0x2EE05, 0x16E07, 0x2E12C, 0x3B000, 0, 0, 0],
        (0, 7),
        Ok(0),
    ),
    // movi R14,0x03 and andi R14,0x07: pages 0 to 3.
    (
        [0x3A000, 0x12E03, 0x16E07, 0x2E12C, 0x3B000, 0, 0, 0],
        (0, 3),
        Ok(0),
    ),
    // A conditional call.
    (
        [0x3A000, 0x34002, 0x3B000, 0x39000, 0, 0, 0, 0],
        (0, 0),
        Ok(1),
    ),
];

#[test]
fn passes(rt: HostRuntime) {
    for (place, (image, owned, expected)) in PASSES.iter().enumerate() {
        let (answer, _) = ask(*image, *owned);
        assert_eq!(rt; (place, answer), (place, *expected));
    }
}
