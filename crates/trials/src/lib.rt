// Tests of the library and of the layers below it, against tables and figures worked out from the rules.
#![tactic(auto)]

#[cfg(test)]
mod codec;
#[cfg(test)]
mod faults;
#[cfg(test)]
mod flow;
#[cfg(test)]
mod memory;
pub mod reach;
#[cfg(test)]
mod reading;
#[cfg(test)]
mod refusing;
#[cfg(test)]
mod stepping;
