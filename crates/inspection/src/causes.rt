// The causes for which an address is refused.
ghost use Rattle.std.specs.Prelude.{◌≡◌, ℕ, ◌<◌, Option, length};
ghost use Rattle.refusals.specs.declared.Refusal.{Refusal};
ghost use Rattle.ledger.specs.Pages.{inside_owned};
ghost use Rattle.ledger.specs.Rows.{spans_of};
ghost use Rattle.inspection.specs.First.{First};
ghost use Rattle.inspection.specs.Looking.{escapes, leaves, mixed, either_marked, misplaced, writes_page, instruction_cause, strays, reaching};
ghost use Rattle.inspection.specs.Sheets.{cause_on, foreign_on};

use crate::sheet::Sheet;
use facts::marks::FrameMarks;
use facts::spans::PageSpans;
use facts::successors::Successors;
use facts::written::written;
use ledger::owned::OwnedPages;
use ledger::row::Row;
use refusals::Refusal;
use words::codes::Transfer;
use words::decoding::instruction_of;
use words::instruction::Instruction;

// What the first address shows at which a test shows anything. A loop: with a `find_map` over
// the closure the proof did not close.
pub(crate) fn find_first<F: Fn(usize) -> Option<Refusal>>(
    words: usize,
    test: F,
) -> Result<(), Refusal>
    requires { (a : ℕ) → a < words → F.pre test a }
    ensures { (cause : ℕ → Option Refusal) → ((a : ℕ) (found : Option Refusal) → a < words → F.post test a found → found ≡ cause a) → First words cause result }
{
    for address in 0..words {
        if let Some(refusal) = test(address) {
            return Err(refusal);
        }
    }
    Ok(())
}

// Whether there is an address that lies outside an image of so many words.
fn escapes(address: Option<i32>, words: usize) -> bool
    ensures { result ≡ escapes words address }
{
    address.is_some_and(|address| !usize::try_from(address).is_ok_and(|address| address < words))
}

// Whether control can leave an image of so many words.
fn leaves(to: Successors<i32>, words: usize) -> bool
    ensures { result ≡ leaves words to }
{
    escapes(to.next, words)
        || escapes(to.target, words)
        || escapes(to.routine, words)
        || escapes(to.resume, words)
}

fn is_mixed(marks: FrameMarks) -> bool
    ensures { result ≡ mixed marks }
{
    marks.outer && marks.routine
}

// Whether the main program or the handler can come to an address.
pub(crate) fn is_reached(row: Row) -> bool
    ensures { result ≡ either_marked row.main row.handler }
{
    row.main.is_marked() || row.handler.is_marked()
}

// Whether a return has no frame that it could leave.
fn is_misplaced(instruction: Instruction, row: Row) -> bool
    ensures { result ≡ misplaced instruction row.main row.handler }
{
    match instruction {
        Instruction::Return => row.main.outer || row.handler.outer,
        Instruction::ReturnFromInterrupt => row.main.is_marked() || row.handler.routine,
        _ => false,
    }
}

// Whether the result goes into R14 or R15.
fn writes_page(instruction: Instruction) -> bool
    ensures { result ≡ writes_page instruction }
{
    matches!(written(instruction), Some(14 | 15))
}

// What is wrong with an instruction, the smallest number first.
fn cause_of_instruction(
    words: usize,
    address: usize,
    instruction: Instruction,
    row: Row,
) -> Option<Refusal>
    requires { address < 4096 }
    ensures { result ≡ instruction_cause words address instruction row.main row.handler }
{
    if leaves(Successors::of(address as u16, instruction), words) {
        Some(Refusal::SuccessorOutside { address })
    } else if is_mixed(row.main) || is_mixed(row.handler) {
        Some(Refusal::FramesMixed { address })
    } else if is_misplaced(instruction, row) {
        Some(Refusal::ReturnMisplaced { address })
    } else if row.handler.is_marked() && writes_page(instruction) {
        Some(Refusal::PageRegisterWritten { address })
    } else {
        None
    }
}

// Whether an instruction loads from or stores to the memory.
fn reaches_memory(instruction: Option<Instruction>) -> bool
    ensures { result ≡ reaching instruction }
{
    matches!(
        instruction,
        Some(
            Instruction::Direct {
                transfer: Transfer::Store | Transfer::Load,
                ..
            } | Instruction::Indirect {
                transfer: Transfer::Store | Transfer::Load,
                ..
            },
        )
    )
}

// Whether every page that the registers can name is owned, from the lowest to the highest.
fn is_inside(owned: OwnedPages, spans: Option<PageSpans>) -> bool
    ensures { result ≡ inside_owned owned spans }
{
    match spans {
        None => true,
        Some(PageSpans { r14, r15 }) => {
            let lowest = u16::from_be_bytes([r15.low, r14.low]);
            let highest = u16::from_be_bytes([r15.high, r14.high]);
            owned.first <= u32::from(lowest) && u32::from(highest) <= owned.last
        }
    }
}

// What a row says of the page registers: nothing where the main program never comes.
fn spans_of(row: Row) -> Option<PageSpans>
    ensures { result ≡ spans_of row }
{
    row.main.is_marked().then_some(PageSpans {
        r14: row.r14,
        r15: row.r15,
    })
}

// Whether an access can leave the owned pages: the main program with the spans here, the handler with all of them.
fn can_stray(owned: OwnedPages, row: Row, all: Option<PageSpans>) -> bool
    ensures { result ≡ strays owned row.main row.handler (spans_of row) all }
{
    let here = spans_of(row);
    (row.main.is_marked() && !is_inside(owned, here))
        || (row.handler.is_marked() && !is_inside(owned, all))
}

impl Sheet<'_, '_> {
    // What is wrong at an address, if control can come there at all.
    fn cause_at(&self, address: usize) -> Option<Refusal>
        requires { address < length self.now.words.now }
        ensures { result ≡ cause_on self.now address }
    {
        let row = self.rows[address];
        if !is_reached(row) {
            return None;
        }
        match instruction_of(self.words[address]) {
            Some(instruction) => cause_of_instruction(self.words.len(), address, instruction, row),
            None => Some(Refusal::UndefinedReached { address }),
        }
    }

    // The first address with one of the causes 5 to 9.
    pub(crate) fn find_cause(&self) -> Result<(), Refusal>
        ensures { First (length self.now.words.now) (cause_on self.now) result }
    {
        find_first(self.words.len(), |address| self.cause_at(address))
    }

    // Whether an access at an address can leave the owned pages.
    fn foreign_at(
        &self,
        owned: OwnedPages,
        all: Option<PageSpans>,
        address: usize,
    ) -> Option<Refusal>
        requires { address < length self.now.words.now }
        ensures { result ≡ foreign_on self.now owned all address }
    {
        let instruction = instruction_of(self.words[address]);
        let strays = reaches_memory(instruction) && can_stray(owned, self.rows[address], all);
        strays.then_some(Refusal::PageNotOwned { address })
    }

    // The first address that can reach a page that is not owned.
    pub(crate) fn find_foreign(
        &self,
        owned: OwnedPages,
        all: Option<PageSpans>,
    ) -> Result<(), Refusal>
        ensures { First (length self.now.words.now) (foreign_on self.now owned all) result }
    {
        find_first(self.words.len(), |address| {
            self.foreign_at(owned, all, address)
        })
    }
}
