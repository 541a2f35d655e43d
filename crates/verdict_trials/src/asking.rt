// Inspection of images of eight words, over ten rows of which none is blank.
use facts::interval::Interval;
use facts::marks::FrameMarks;
use inspection::inspecting::inspect;
use inspection::passed::PassedImage;
use ledger::owned::OwnedPages;
use ledger::row::Row;
use refusals::Refusal;

// Enables interrupts and calls a routine that stores R1, which is 0, into cell 5 of page 3.
pub(crate) const EXAMPLE: [u32; 7] = [
    0x3A000, 0x12E03, 0x2C005, 0x38002, 0x3B000, 0x2E12C, 0x39000,
];

// The certified depth, or why the image is refused.
pub(crate) type Verdict = Result<usize, Refusal>;

// An image, its first and last owned page, and the verdict.
pub(crate) type Case = ([u32; 8], (u32, u32), Verdict);

// A row as a table can hold it, since no constant calls `Interval::point`: the main program's frames, the handler's,
// both ends of R14 and of R15, and the need.
pub(crate) type Told = (FrameMarks, FrameMarks, (u8, u8), (u8, u8), u8);

pub(crate) const NONE: FrameMarks = FrameMarks {
    outer: false,
    routine: false,
};

pub(crate) const OUTER: FrameMarks = FrameMarks {
    outer: true,
    routine: false,
};

pub(crate) const ROUTINE: FrameMarks = FrameMarks {
    outer: false,
    routine: true,
};

const BOTH: FrameMarks = FrameMarks {
    outer: true,
    routine: true,
};

pub(crate) const BLANK: Told = (NONE, NONE, (0, 0), (0, 0), 0);

// A row that no inspection leaves.
pub(crate) const STALE: Told = (BOTH, BOTH, (7, 7), (9, 9), 200);

// Rows of zeros as far as the image reaches.
pub(crate) const ZEROED: [Told; 10] = [
    BLANK, BLANK, BLANK, BLANK, BLANK, BLANK, BLANK, BLANK, STALE, STALE,
];

pub(crate) fn stale() -> Row {
    Row {
        main: BOTH,
        handler: BOTH,
        r14: Interval::point(7),
        r15: Interval::point(9),
        need: 200,
    }
}

pub(crate) fn told(row: Row) -> Told {
    let r14 = (row.r14.low, row.r14.high);
    let r15 = (row.r15.low, row.r15.high);
    (row.main, row.handler, r14, r15, row.need)
}

pub(crate) fn verdict(answer: Result<PassedImage<'_>, Refusal>) -> Verdict {
    answer.map(|passed| passed.depth())
}

// The verdict on an image, and what it leaves in the rows.
pub(crate) fn ask(image: [u32; 8], (first, last): (u32, u32)) -> (Verdict, [Told; 10]) {
    let mut rows = [stale(); 10];
    let answer = verdict(inspect(&image, OwnedPages { first, last }, &mut rows));
    (answer, rows.map(told))
}
