// The verdict on an image that is fit to be inspected.
ghost use Rattle.std.specs.Prelude.{◌≡◌, ◌+◌, length, replicate, if◌then◌else◌, slice_index};
ghost use Rattle.words.specs.Decoding.{instruction_of};
ghost use Rattle.ledger.specs.Interrupts.{word_enables, interruptible};
ghost use Rattle.ledger.specs.Ledgers.{zero_spans};
ghost use Rattle.ledger.specs.Rows.{blank_row};
ghost use Rattle.inspection.specs.Facts.{handler_marks};
ghost use Rattle.inspection.specs.Inspects.{Decides, Judges};
ghost use Rattle.inspection.specs.Obstacles.{FitsDevice};
ghost use Rattle.inspection.specs.Recording.{row_of};
ghost use Rattle.inspection.specs.Sheets.{needed, FindsFacts, SameSheet};

use crate::sheet::Sheet;
use facts::engine::smallest;
use facts::marks::FrameMarks;
use facts::spans::PageSpans;
use ledger::owned::OwnedPages;
use ledger::row::Row;
use machine::stack::MOST_ENTRIES;
use refusals::Refusal;
use words::MOST_WORDS;
use words::codes::FlagChange;
use words::decoding::instruction_of;
use words::instruction::Instruction;

fn enables_interrupts(word: u32) -> bool
    ensures { result ≡ word_enables (instruction_of word) }
{
    matches!(
        instruction_of(word),
        Some(Instruction::Flag {
            change: FlagChange::Seti,
        },)
    )
}

// Whether some word enables interrupts, reached or not.
fn is_interruptible(image: &[u32]) -> bool
    ensures { result ≡ interruptible image.now }
{
    image.iter().any(|word| enables_interrupts(*word))
}

// What is marked at address 0: nothing where no interrupt can come.
fn handler_start(interrupted: bool) -> FrameMarks
    ensures { result ≡ handler_marks interrupted }
{
    if interrupted {
        FrameMarks::OUTERMOST
    } else {
        FrameMarks::UNMARKED
    }
}

// Both page registers are 0 after a reset.
fn zero_spans() -> Option<PageSpans>
    ensures { result ≡ zero_spans }
{
    Some(PageSpans::zero())
}

// A row with the facts at an address, and no need yet.
fn row_of(main: FrameMarks, handler: FrameMarks, spans: Option<PageSpans>) -> Row
    ensures { result ≡ row_of main handler spans 0 }
{
    let PageSpans { r14, r15 } = spans.unwrap_or(PageSpans::zero());
    Row {
        main,
        handler,
        r14,
        r15,
        need: 0,
    }
}

impl Sheet<'_, '_> {
    // The smallest facts of both contexts into the rows, with no needs yet; answers the summary of the spans.
    fn find_facts(&mut self, interrupted: bool) -> Option<PageSpans>
        ensures { FindsFacts self.old interrupted self.new result }
    {
        // A table for each kind of fact, as the method wants them.
        let mut mains = [FrameMarks::UNMARKED; MOST_WORDS];
        let mut handlers = [FrameMarks::UNMARKED; MOST_WORDS];
        let mut spans = [None; MOST_WORDS];
        smallest(self.words, &mut mains, 1, FrameMarks::OUTERMOST);
        smallest(self.words, &mut handlers, 0, handler_start(interrupted));
        let all = smallest(self.words, &mut spans, 1, zero_spans());
        // By the address: with the three tables zipped to `iter_mut` a loop's invariant could not speak of the rows.
        for (at, row) in self.rows.iter_mut().enumerate() {
            *row = row_of(mains[at], handlers[at], spans[at]);
        }
        all
    }

    // What the main program needs, and what an interrupt adds: its own entry and what the handler needs.
    fn depth(&self, interrupted: bool) -> usize
        ensures { result ≡ slice_index (needed self.now) 1 + (if interrupted then 1 + slice_index (needed self.now) 0 else 0) }
    {
        let main = usize::from(self.rows[1].need);
        if interrupted {
            main + (1 + usize::from(self.rows[0].need))
        } else {
            main
        }
    }

    // Facts first, then the causes in the order of their numbers.
    fn judge(&mut self, owned: OwnedPages) -> Result<usize, Refusal>
        ensures verdict { Decides self.old.words.now owned result self.new.rows.now }
        ensures same { SameSheet self.old self.new }
    {
        let interrupted = is_interruptible(self.words);
        let all = self.find_facts(interrupted);
        self.find_cause()?;
        self.settle_needs();
        let depth = self.depth(interrupted);
        if depth > MOST_ENTRIES {
            return Err(Refusal::StackTooDeep);
        }
        self.find_foreign(owned, all)?;
        Ok(depth)
    }
}

// Zeros in every row. A function of its own, so that its contract alone says what that leaves.
fn clear_rows(rows: &mut [Row])
    ensures { rows.new ≡ replicate (length rows.old) blank_row }
{
    rows.fill(Row::blank());
}

// The certified depth with the rows of the smallest ledger, or a refusal with rows of zeros.
pub(crate) fn certify(words: &[u32], owned: OwnedPages, rows: &mut [Row]) -> Result<usize, Refusal>
    requires { FitsDevice words.now × (length rows.old ≡ length words.now) }
    ensures { Judges words.now owned result rows.new }
{
    let mut sheet = Sheet { words, rows };
    let verdict = sheet.judge(owned);
    if verdict.is_err() {
        clear_rows(rows);
    }
    verdict
}
