// Reads a job from standard input and prints the listing of its program.
#![tactic(auto)]

use huigasto::listing;
use job_input::job_bytes;

fn main(rt: HostRuntime) -> anyhow::Result<()> {
    let bytes = job_bytes(&rt)?;
    let text = listing(rt.alloc(), bytes.as_slice())?;
    rt.print(text)?;
    Ok(())
}
