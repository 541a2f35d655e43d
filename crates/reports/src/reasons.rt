// Why something was refused or stopped, in words.
ghost use Rattle.std.specs.Prelude.{Some};
ghost use Rattle.reports.specs.Reasons.{verdict_reason, run_reason, reasons_text};

use crate::outcome::JobOutcome;
use machine::report::RunReport;
use refusals::Refusal;
use std::fmt;

// The reasons of an outcome, a line for each: none where nothing was refused or stopped.
#[derive(Clone, Copy)]
pub struct Reasons(pub JobOutcome);

#[derive(Clone, Copy)]
struct VerdictReason(Result<usize, Refusal>);

impl fmt::Display for VerdictReason {
    ghost output = { λ v. Some (verdict_reason v.0) };

    fn fmt<W: fmt::Write>(&self, f: &mut fmt::Formatter<W>) -> fmt::Result {
        match self.0 {
            Ok(_) => Ok(()),
            Err(refusal) => write!(f, "program refused: {refusal}\n"),
        }
    }
}

#[derive(Clone, Copy)]
struct RunReason(Result<RunReport, Refusal>);

impl fmt::Display for RunReason {
    ghost output = { λ r. Some (run_reason r.0) };

    fn fmt<W: fmt::Write>(&self, f: &mut fmt::Formatter<W>) -> fmt::Result {
        match self.0 {
            Ok(run) => match run.stop {
                None => Ok(()),
                Some(refusal) => write!(f, "run stopped: {refusal}\n"),
            },
            Err(refusal) => write!(f, "run refused: {refusal}\n"),
        }
    }
}

impl fmt::Display for Reasons {
    ghost output = { λ r. Some (reasons_text r.0) };

    fn fmt<W: fmt::Write>(&self, f: &mut fmt::Formatter<W>) -> fmt::Result {
        match self.0 {
            JobOutcome::CarriedOut(report) => {
                let verdict = VerdictReason(report.verdict);
                let run = RunReason(report.run);
                write!(f, "{verdict}{run}")
            }
            JobOutcome::Refused(refusal) => write!(f, "job refused: {refusal}\n"),
        }
    }
}
