// Inspection: the verdict on an image, with its ledger, and the image that has passed.
#![tactic(auto)]

mod causes;
mod checking;
pub mod inspecting;
mod judging;
mod needs;
pub mod passed;
mod sheet;
