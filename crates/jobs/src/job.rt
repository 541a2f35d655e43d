// A whole job, read from its bytes.
ghost use Rattle.std.specs.Prelude.{◌≡◌, ◌^◌, ◌<◌, length};
ghost use Rattle.jobs.specs.declared.job.JobError.TheVariants.{OutOfMemory, Refused as RefusedFor};
ghost use Rattle.jobs.specs.Jobs.{Adds, Pushes, Answers, ReadingLaws};

use crate::reader::Reader;
use crate::record::Record;
pub use ledger::owned::OwnedPages;
use refusals::Refusal;
use std::alloc::{AllocError, AllocFailed, Global};
use std::error::Error;

// The most words, and the most ticks, that a job may have.
const MOST: usize = 4096;

#[derive(Drop, Debug)]
pub struct Job {
    pub pages: OwnedPages,
    pub words: Vec<u32>,
    pub ticks: Vec<u16>,
}

// Why a job was not read: the job's fault, or want of memory.
#[derive(Clone, Copy, Debug, PartialEq, Eq)]
pub enum JobError {
    Refused(Refusal),
    OutOfMemory,
}

impl<T: Drop> From<AllocFailed<T>> for JobError {
    ghost from_gives = { λ _ r. r ≡ OutOfMemory };

    fn from(_e: AllocFailed<T>) -> JobError {
        JobError::OutOfMemory
    }
}

impl From<AllocError> for JobError {
    ghost from_gives = { λ _ r. r ≡ OutOfMemory };

    fn from(_e: AllocError) -> JobError {
        Self::OutOfMemory
    }
}

impl Error for JobError {}

impl From<Refusal> for JobError {
    ghost from_gives = { λ e r. r ≡ RefusedFor e };

    fn from(refusal: Refusal) -> JobError {
        JobError::Refused(refusal)
    }
}

// One item more, unless the list is full; `place` is that of the item's record.
fn push_within<T: Drop>(list: &mut Vec<T>, item: T, place: usize) -> Result<(), JobError>
    ensures { Pushes list.old.items item place result list.new.items }
{
    if list.len() >= MOST {
        return Err(Refusal::TooManyRecords { place }.into());
    }
    list.push(item)?;
    Ok(())
}

impl Job {
    // The most bytes that a job may have.
    pub const MOST_BYTES: usize = 65_535;

    // The job that the bytes tell.
    #[tactic(auto, using(crate::proofs::Laws::reading_laws))]
    pub fn read(heap: Global, bytes: &[u8]) -> Result<Job, JobError>
        ensures answer { Answers bytes.now result }
        ensures laws { ReadingLaws }
    {
        if bytes.len() > Job::MOST_BYTES {
            return Err(Refusal::JobTooLong.into());
        }
        Job::read_records(heap, bytes)
    }

    fn read_records(heap: Global, bytes: &[u8]) -> Result<Job, JobError>
        requires { length bytes.now < 2 ^ 16 }
        ensures { Answers bytes.now result }
    {
        let mut job = Job {
            pages: OwnedPages { first: 0, last: 0 },
            words: Vec::new(heap),
            ticks: Vec::new(heap),
        };
        let mut reader = Reader {
            rest: bytes,
            place: 0,
        };
        while !reader.rest.is_empty() {
            let place = reader.place;
            let record = reader.take_record()?;
            job.add(record, place)?;
        }
        Ok(job)
    }

    // Takes up the record that stands at `place`.
    fn add(&mut self, record: Record, place: usize) -> Result<(), JobError>
        ensures { Adds self.old «record» place result self.new }
    {
        match record {
            Record::Pages { first, last } => {
                self.pages = OwnedPages { first, last };
                Ok(())
            }
            Record::Word { word } => push_within(&mut self.words, word, place),
            Record::Tick { tick } => push_within(&mut self.ticks, tick, place),
        }
    }
}
