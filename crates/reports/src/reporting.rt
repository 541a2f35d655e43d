// What is told of the bytes of a job.
ghost use Rattle.std.specs.Prelude.{◌≡◌, IfOk, string_bytes, MatchResult};
ghost use Rattle.jobs.specs.Jobs.{Starved};
ghost use Rattle.reports.specs.Reporting.{OutcomeOf, ReportOf, ReportLaws};

use crate::carrying::carry_out;
use crate::outcome::JobOutcome;
use jobs::job::{Job, JobError};
use std::alloc::{AllocError, Global};

// Carries out the job that the bytes tell.
pub fn outcome(heap: Global, bytes: &[u8]) -> Result<JobOutcome, AllocError>
    ensures { MatchResult result (λ o. OutcomeOf bytes.now o) (λ _. Starved bytes.now) }
{
    match Job::read(heap, bytes) {
        Ok(job) => Ok(JobOutcome::CarriedOut(carry_out(&job))),
        Err(JobError::Refused(refusal)) => Ok(JobOutcome::Refused(refusal)),
        // By hand, since the job's error does not hold the library's.
        Err(JobError::OutOfMemory) => Err(AllocError),
    }
}

// The text of what the job comes to: two lines, or one that refuses the job.
pub fn report(heap: Global, bytes: &[u8]) -> Result<String, AllocError>
    ensures text { IfOk result (λ text. ReportOf bytes.now (string_bytes text)) }
    ensures laws { ReportLaws }
{
    let outcome = outcome(heap, bytes)?;
    format!(in heap; "{outcome}")
}
