// Tests of inspection, against verdicts and rows worked out by hand from the rules.
#![tactic(auto)]

#[cfg(test)]
mod asking;
#[cfg(test)]
mod limits;
#[cfg(test)]
mod loading;
#[cfg(test)]
mod nesting;
#[cfg(test)]
mod passing;
#[cfg(test)]
mod refusing;
#[cfg(test)]
mod running;
#[cfg(test)]
mod trying;
