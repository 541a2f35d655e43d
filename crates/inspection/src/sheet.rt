// An image with the rows in which its ledger is worked out.
ghost use Rattle.std.specs.Prelude.{◌≡◌, length};
ghost use Rattle.inspection.specs.Obstacles.{FitsDevice};

use ledger::row::Row;
use machine::stack::MOST_ENTRIES;

// The largest need that a stack meets.
pub(crate) const MOST_NEED: u8 = MOST_ENTRIES as u8;

// A row for each word. Only the rows change.
#[derive(Drop)]
pub(crate) struct Sheet<'w, 'r> {
    pub(crate) words: &'w [u32],
    pub(crate) rows: &'r mut [Row],
    ghost fits: { FitsDevice words.now },
    ghost level: { length rows.now ≡ length words.now },
}
