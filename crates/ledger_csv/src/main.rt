// Reads a job from standard input, inspects its program and prints the ledger as a table for spreadsheets.
#![tactic(auto)]

use huigasto::job_table;
use job_input::job_bytes;

fn main(rt: HostRuntime) -> anyhow::Result<()> {
    let bytes = job_bytes(&rt)?;
    let text = job_table(rt.alloc(), bytes.as_slice())?;
    rt.print(text)?;
    Ok(())
}
