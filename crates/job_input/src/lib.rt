// The bytes of a job, as a program finds them on its standard input.
#![tactic(auto)]

use huigasto::Job;
use std::io::Read;

// One byte more than a job may have, so that a longer one is seen to be too long.
const ENOUGH: u64 = Job::MOST_BYTES as u64 + 1;

// What stands on standard input, as far as a job can reach.
pub fn job_bytes(rt: &HostRuntime) -> anyhow::Result<Vec<u8>> {
    let mut bytes = Vec::new(rt.alloc());
    rt.stdin().take(ENOUGH).read_to_end(&mut bytes)?;
    Ok(bytes)
}
