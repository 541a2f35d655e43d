// What a ledger records for one word of an image.
ghost use Rattle.std.specs.Prelude.{◌≡◌};
ghost use Rattle.ledger.specs.Rows.{blank_row};

use facts::interval::Interval;
use facts::marks::FrameMarks;

#[derive(Clone, Copy, Debug, PartialEq, Eq)]
pub struct Row {
    // The frames in which the main program can come here.
    pub main: FrameMarks,
    // The frames in which the interrupt handler can come here.
    pub handler: FrameMarks,
    // Where the page registers lie when the main program comes here.
    pub r14: Interval,
    pub r15: Interval,
    // How many stack entries can still be pushed from here.
    pub need: u8,
}

impl Row {
    // Zeros, as for a word that nothing comes to.
    pub fn blank() -> Row
        ensures { result ≡ blank_row }
    {
        Row {
            main: FrameMarks::UNMARKED,
            handler: FrameMarks::UNMARKED,
            r14: Interval::point(0),
            r15: Interval::point(0),
            need: 0,
        }
    }
}
