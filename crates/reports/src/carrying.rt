// Carries out a job: inspects its program and runs it.
ghost use Rattle.std.specs.Prelude.{replicate};
ghost use Rattle.ledger.specs.Rows.{blank_row};
ghost use Rattle.reports.specs.Carrying.{Judged, Tried, CarriesOut};

use crate::outcome::JobReport;
use inspection::inspecting::inspect;
use jobs::job::Job;
use ledger::owned::OwnedPages;
use ledger::row::Row;
use machine::board::Board;
use machine::report::RunReport;
use memories::board::BoardMemory;
use refusals::Refusal;
use words::MOST_WORDS;

// The exports that a run has room for.
const MOST_EXPORTS: usize = 4096;

// 64 pages.
const CELLS: usize = 16_384;

// The certified depth of the program, or why it is refused.
fn judge(words: &[u32], owned: OwnedPages) -> Result<usize, Refusal>
    ensures { Judged words.now owned (replicate 4096 blank_row) result }
{
    let mut rows = [Row::blank(); MOST_WORDS];
    inspect(words, owned, &mut rows).map(|passed| passed.depth())
}

// The run of the program on a newly reset board.
fn try_run(words: &[u32], ticks: &[u16]) -> Result<RunReport, Refusal>
    ensures { Tried words.now ticks.now (replicate 16384 0) (replicate 4096 0) result }
{
    let mut board = Board::new();
    let mut cells = [0; CELLS];
    let mut memory = BoardMemory::new(&mut cells);
    let mut exports = [0; MOST_EXPORTS];
    board.run(words, ticks, &mut memory, &mut exports)
}

// Inspects the job's program for its owned pages, and runs it for its ticks, refused or not.
pub fn carry_out(job: &Job) -> JobReport
    ensures { CarriesOut job.now.pages job.now.words.items job.now.ticks.items result }
{
    let words = job.words.as_slice();
    JobReport {
        verdict: judge(words, job.pages),
        run: try_run(words, job.ticks.as_slice()),
    }
}
