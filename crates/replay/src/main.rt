// Reads jobs with what must be said of each from standard input, and compares that with what the library says.
#![tactic(auto)]

mod hex;
mod telling;

use hex::bytes_of;
use std::io::{BufRead, BufReader};
use telling::told;

// The jobs so far, and the newest: what the library says of it, and what must be said.
#[derive(Drop)]
struct Session {
    jobs: usize,
    agreeing: usize,
    told: String,
    expected: String,
}

impl Session {
    // Compares the newest job, if there is one.
    fn close(&mut self, rt: &HostRuntime) -> anyhow::Result<()> {
        if self.jobs == 0 {
            return Ok(());
        }
        if self.told.as_str() == self.expected.as_str() {
            self.agreeing = self.agreeing.wrapping_add(1);
            return Ok(());
        }
        let number = self.jobs;
        println!(rt; "job {number} differs, it gives:")?;
        rt.print(self.told.as_str())?;
        Ok(())
    }

    fn open(&mut self, rt: &HostRuntime, letters: &[u8]) -> anyhow::Result<()> {
        self.close(rt)?;
        let bytes = bytes_of(rt.alloc(), letters)?;
        self.told = told(rt.alloc(), bytes.as_slice())?;
        self.expected = String::new(rt.alloc());
        self.jobs = self.jobs.wrapping_add(1);
        Ok(())
    }

    fn take(&mut self, rt: &HostRuntime, line: &str) -> anyhow::Result<()> {
        if let Some(letters) = line.strip_prefix("job:") {
            return self.open(rt, letters.as_bytes());
        }
        if !line.is_empty() && !line.starts_with('#') {
            self.expected.push_str(line)?;
            self.expected.push('\n')?;
        }
        Ok(())
    }
}

fn main(rt: HostRuntime) -> anyhow::Result<()> {
    let mut session = Session {
        jobs: 0,
        agreeing: 0,
        told: String::new(rt.alloc()),
        expected: String::new(rt.alloc()),
    };
    for line in BufReader::new(rt.alloc(), rt.stdin())?.lines(rt.alloc()) {
        let text = line?;
        session.take(&rt, text.as_str())?;
    }
    session.close(&rt)?;
    let agreeing = session.agreeing;
    println!(rt; "{agreeing} jobs agree")?;
    Ok(())
}
