// Dataflow analysis of program images: successors, kinds of fact, and the smallest facts that flow from a start.
#![tactic(auto)]

pub mod engine;
pub mod fact;
mod flow;
pub mod interval;
pub mod marks;
pub mod spans;
pub mod successors;
pub mod written;
