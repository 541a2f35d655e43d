// What the library says of a job, in the lines of the stored jobs.
use huigasto::{Job, Row, inspect, report};
use std::alloc::{AllocError, Global};

fn write_row(text: &mut String, address: usize, row: Row) -> Result<(), AllocError> {
    write!(text, "ROW {address} {} {}", row.main, row.handler)?;
    write!(text, " {} {}", row.r14.low, row.r14.high)?;
    write!(text, " {} {}", row.r15.low, row.r15.high)?;
    writeln!(text, " {}", row.need)
}

fn write_rows(text: &mut String, rows: &[Row]) -> Result<(), AllocError> {
    for (address, row) in rows.iter().enumerate() {
        write_row(text, address, *row)?;
    }
    Ok(())
}

// A line for each word: what inspection leaves of zeros, whether the program passes or not.
fn write_ledger(text: &mut String, job: &Job, rows: &mut [Row]) -> Result<(), AllocError> {
    let words = job.words.as_slice();
    let _ = inspect(words, job.pages, rows);
    let count = words.len().min(rows.len());
    write_rows(text, &rows[0..count])
}

// The report of the job, and the rows of its program.
pub(crate) fn told(heap: Global, bytes: &[u8]) -> Result<String, AllocError> {
    let mut text = report(heap, bytes)?;
    let Ok(job) = Job::read(heap, bytes) else {
        return Ok(text);
    };
    let blank = Row::blank();
    let mut rows = [blank; 4096];
    write_ledger(&mut text, &job, &mut rows)?;
    Ok(text)
}
