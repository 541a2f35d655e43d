// Reads a job from standard input, carries it out and prints what it comes to; the reasons go to standard error.
#![tactic(auto)]

use huigasto::{Reasons, outcome};
use job_input::job_bytes;

fn main(rt: HostRuntime) -> anyhow::Result<()> {
    let bytes = job_bytes(&rt)?;
    let outcome = outcome(rt.alloc(), bytes.as_slice())?;
    rt.print(outcome)?;
    rt.eprint(Reasons(outcome))?;
    Ok(())
}
