// What a run reports. That both counts are in it is a rule of the project.
use refusals::Refusal;

#[derive(Clone, Copy, Debug, PartialEq, Eq)]
pub struct RunReport {
    // The ticks that were spent, and the cycles of their steps.
    pub ticks: usize,
    pub cycles: u32,
    // How many exports were written: into a lent list, since a run allocates nothing.
    pub exports: usize,
    // Nothing where every tick was used.
    pub stop: Option<Refusal>,
    pub pc: usize,
}
