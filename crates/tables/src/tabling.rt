// The table of the program that a job tells.
ghost use Rattle.std.specs.Prelude.{replicate, string_bytes, MatchResult};
ghost use Rattle.ledger.specs.Rows.{blank_row};
ghost use Rattle.tables.specs.Tabling.{PassedTable, NoTable, JobTable, NoJobTable};

use crate::table::ledger_table;
use inspection::inspecting::inspect;
use jobs::job::{Job, JobError};
use ledger::owned::OwnedPages;
use ledger::row::Row;
use std::alloc::Global;
use words::MOST_WORDS;

fn program_table(heap: Global, words: &[u32], owned: OwnedPages) -> Result<String, JobError>
    ensures { MatchResult result (λ text. PassedTable owned words.now (replicate 4096 blank_row) (string_bytes text)) (λ error. NoTable owned words.now (replicate 4096 blank_row) error) }
{
    let mut rows = [Row::blank(); MOST_WORDS];
    inspect(words, owned, &mut rows)?;
    Ok(ledger_table(heap, words, &rows)?)
}

// The table of the job's program if it passes inspection, or why there is none.
pub fn job_table(heap: Global, bytes: &[u8]) -> Result<String, JobError>
    ensures { MatchResult result (λ text. JobTable bytes.now (string_bytes text)) (λ error. NoJobTable bytes.now error) }
{
    let job = Job::read(heap, bytes)?;
    program_table(heap, job.words.as_slice(), job.pages)
}
