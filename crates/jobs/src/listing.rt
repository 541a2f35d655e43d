// The listing of a job's program.
ghost use Rattle.std.specs.Prelude.{◌≡◌, ℕ, List, ◌++◌, length, IfOk, Some, string_bytes, OnOk};
ghost use Rattle.words.specs.Codec.{Decodes};
ghost use Rattle.jobs.specs.Jobs.{Reading, accepted, Means};
ghost use Rattle.jobs.specs.Listing.{word_digits, line_text, Lines, summary_text, refused_text, error_text, Lists};

use crate::job::{Job, JobError};
use ledger::owned::OwnedPages;
use refusals::Refusal;
use std::alloc::{AllocError, Global};
use std::fmt;
use words::instruction::Instruction;

// A word in hexadecimal: five digits, or its last six where it needs more.
#[derive(Clone, Copy)]
pub struct HexWord(pub u32);

impl fmt::Display for HexWord {
    ghost output = { λ w. Some (word_digits w.0) };

    fn fmt<W: fmt::Write>(&self, f: &mut fmt::Formatter<W>) -> fmt::Result {
        let word = self.0;
        if word < 0x10_0000 {
            write!(f, "{word:05X}")
        } else {
            write!(f, "{:06X}", word % 0x100_0000)
        }
    }
}

// A word at its address, of which four digits are shown, with the instruction that it stands for.
#[derive(Clone, Copy)]
struct Line {
    address: usize,
    word: u32,
    decoded: Result<Instruction, Refusal>,
}

impl Line {
    fn new(address: usize, word: u32) -> Line
        ensures { (result.address ≡ address) × (result.word ≡ word) × Decodes word result.decoded }
    {
        let decoded = Instruction::decode(word);
        Line {
            address,
            word,
            decoded,
        }
    }
}

impl fmt::Display for Line {
    ghost output = { λ l. Some (line_text l.address l.word l.decoded) };

    fn fmt<W: fmt::Write>(&self, f: &mut fmt::Formatter<W>) -> fmt::Result {
        let address = self.address % 0x1_0000;
        let word = HexWord(self.word);
        match self.decoded {
            Ok(instruction) => write!(f, "{address:04X} {word} {instruction}"),
            Err(refusal) => write!(f, "{address:04X} {word} refused {}", refusal.number()),
        }
    }
}

// The owned pages and the count of ticks.
#[derive(Clone, Copy)]
struct Summary {
    pages: OwnedPages,
    ticks: usize,
}

impl fmt::Display for Summary {
    ghost output = { λ s. Some (summary_text s.pages s.ticks) };

    fn fmt<W: fmt::Write>(&self, f: &mut fmt::Formatter<W>) -> fmt::Result {
        write!(
            f,
            "pages {} to {}, ticks {}",
            self.pages.first, self.pages.last, self.ticks
        )
    }
}

// What is said of a job that is refused.
#[derive(Clone, Copy)]
pub struct RefusedJob(pub Refusal);

impl fmt::Display for RefusedJob {
    ghost output = { λ r. Some (refused_text r.0) };

    fn fmt<W: fmt::Write>(&self, f: &mut fmt::Formatter<W>) -> fmt::Result {
        write!(f, "JOB {} at {}", self.0.number(), self.0.value())
    }
}

impl fmt::Display for JobError {
    ghost output = { λ e. Some (error_text e) };

    fn fmt<W: fmt::Write>(&self, f: &mut fmt::Formatter<W>) -> fmt::Result {
        match self {
            JobError::Refused(refusal) => write!(f, "{refusal}"),
            JobError::OutOfMemory => write!(f, "out of memory"),
        }
    }
}

fn write_lines(text: &mut String, words: &[u32]) -> Result<(), AllocError>
    ensures { OnOk result ((lines : List ℕ) × Lines 0 words.now lines × (string_bytes text.new ≡ string_bytes text.old ++ lines)) }
{
    for (address, word) in words.iter().enumerate() {
        let line = Line::new(address, *word);
        writeln!(text, "{line}")?;
    }
    Ok(())
}

fn write_listing(text: &mut String, job: &Job) -> Result<(), AllocError>
    ensures { OnOk result ((lines : List ℕ) × Lists (accepted job.now.pages job.now.words.items job.now.ticks.items) lines × (string_bytes text.new ≡ string_bytes text.old ++ lines)) }
{
    write_lines(text, job.words.as_slice())?;
    let summary = Summary {
        pages: job.pages,
        ticks: job.ticks.len(),
    };
    writeln!(text, "{summary}")
}

fn listing_of(heap: Global, job: &Job) -> Result<String, AllocError>
    ensures { IfOk result (λ text. Lists (accepted job.now.pages job.now.words.items job.now.ticks.items) (string_bytes text)) }
{
    let mut text = String::new(heap);
    write_listing(&mut text, job)?;
    Ok(text)
}

// The listing of the job that the bytes tell, or the line that refuses it.
pub fn listing(heap: Global, bytes: &[u8]) -> Result<String, AllocError>
    ensures { IfOk result (λ text. (reading : Reading) × Means bytes.now reading × Lists reading (string_bytes text)) }
{
    match Job::read(heap, bytes) {
        Ok(job) => listing_of(heap, &job),
        Err(JobError::Refused(refusal)) => format!(in heap; "{}\n", RefusedJob(refusal)),
        // By hand, since the job's error does not hold the library's.
        Err(JobError::OutOfMemory) => Err(AllocError),
    }
}
