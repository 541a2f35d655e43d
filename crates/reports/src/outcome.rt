// What a job comes to, and the text that tells it.
ghost use Rattle.std.specs.Prelude.{◌≡◌, Some};
ghost use Rattle.reports.specs.Text.{verdict_text, line_text, run_text, report_text, outcome_text};

use jobs::listing::RefusedJob;
use machine::report::RunReport;
use refusals::Refusal;
use std::fmt;

// What came of a job that was carried out.
#[derive(Clone, Copy, Debug, PartialEq, Eq)]
pub struct JobReport {
    // The certified depth of the program, or why it is refused.
    pub verdict: Result<usize, Refusal>,
    // The run, or why it did not start.
    pub run: Result<RunReport, Refusal>,
}

// An outcome either way, so no `Result`: it has one text, and a refused job is no failure of the call.
#[derive(Clone, Copy, Debug, PartialEq, Eq)]
pub enum JobOutcome {
    CarriedOut(JobReport),
    // The bytes tell no job.
    Refused(Refusal),
}

#[derive(Clone, Copy)]
struct Verdict(Result<usize, Refusal>);

impl fmt::Display for Verdict {
    ghost output = { λ v. Some (verdict_text v.0) };

    fn fmt<W: fmt::Write>(&self, f: &mut fmt::Formatter<W>) -> fmt::Result {
        match self.0 {
            Ok(depth) => write!(f, "PASS depth {depth}"),
            Err(refusal) => write!(f, "REFUSED {} at {}", refusal.number(), refusal.value()),
        }
    }
}

// The numbers of the line that tells a run.
#[derive(Clone, Copy)]
struct RunLine {
    ticks: usize,
    cycles: u32,
    exports: usize,
    stop: u8,
    place: usize,
}

impl RunLine {
    fn new(run: Result<RunReport, Refusal>) -> RunLine
        ensures { line_text result ≡ run_text run }
    {
        match run {
            Ok(run) => RunLine {
                ticks: run.ticks,
                cycles: run.cycles,
                exports: run.exports,
                stop: run.stop_number(),
                place: run.pc,
            },
            Err(refusal) => RunLine {
                ticks: 0,
                cycles: 0,
                exports: 0,
                stop: refusal.number(),
                place: refusal.value(),
            },
        }
    }
}

impl fmt::Display for RunLine {
    ghost output = { λ l. Some (line_text l) };

    fn fmt<W: fmt::Write>(&self, f: &mut fmt::Formatter<W>) -> fmt::Result {
        write!(
            f,
            "RUN ticks {} cycles {} exports {} stop {} at {}",
            self.ticks, self.cycles, self.exports, self.stop, self.place
        )
    }
}

impl fmt::Display for JobReport {
    ghost output = { λ r. Some (report_text r) };

    fn fmt<W: fmt::Write>(&self, f: &mut fmt::Formatter<W>) -> fmt::Result {
        let verdict = Verdict(self.verdict);
        let run = RunLine::new(self.run);
        write!(f, "{verdict}\n{run}\n")
    }
}

impl fmt::Display for JobOutcome {
    ghost output = { λ o. Some (outcome_text o) };

    fn fmt<W: fmt::Write>(&self, f: &mut fmt::Formatter<W>) -> fmt::Result {
        match self {
            JobOutcome::CarriedOut(report) => write!(f, "{report}"),
            JobOutcome::Refused(refusal) => {
                let line = RefusedJob(*refusal);
                write!(f, "{line}\n")
            }
        }
    }
}
