// The calls that step and run a program.
ghost use Rattle.std.specs.Prelude.{◌≡◌, ◌<◌, ◌≤◌, length, Some, None, MatchResult};
ghost use Rattle.machine.specs.Cores.{core_of};
ghost use Rattle.machine.specs.Counting.{Holds, Counts};
ghost use Rattle.machine.specs.Examples.{WorkedExamples};
ghost use Rattle.machine.specs.Laws.{MachineLaws};
ghost use Rattle.machine.specs.Runs.{ran, stop_number, hindered, first_large, lone, Reports, Runs};
ghost use Rattle.machine.specs.Steps.{Steps};

use crate::board::Board;
use crate::report::RunReport;
use crate::step::Stepped;
use memories::memory::Memory;
use refusals::Refusal;
use words::fits_device;

const MOST_TICKS: usize = 65_536;

// The place of the first tick that is not below 512. A rule of the project names a loop over the elements here.
fn first_large(ticks: &[u16]) -> Option<usize>
    ensures { result ≡ first_large 0 ticks.now }
{
    for (place, tick) in ticks.iter().enumerate() {
        if *tick >= 512 {
            return Some(place);
        }
    }
    None
}

// Whether a run may start, or why not.
fn check(image: &[u32], ticks: &[u16]) -> Result<(), Refusal>
    ensures { MatchResult result (λ _. hindered image.now ticks.now ≡ None) (λ refusal. hindered image.now ticks.now ≡ Some refusal) }
{
    if !fits_device(image) {
        return Err(Refusal::ImageLength);
    }
    if ticks.len() > MOST_TICKS {
        return Err(Refusal::TooManyTicks);
    }
    // By cases: `map_or(Ok(()), ..)` would put the refusal behind a closure.
    match first_large(ticks) {
        Some(place) => Err(Refusal::TickTooLarge { place }),
        None => Ok(()),
    }
}

impl RunReport {
    // The number of what stopped the run: 0 where every tick was used.
    pub fn stop_number(&self) -> u8
        ensures { result ≡ stop_number self.now.stop }
    {
        self.stop.map_or(0, |refusal| refusal.number())
    }

    // One step more, its export into the given list.
    fn count(&mut self, stepped: Stepped, exports: &mut [u32])
        requires { (self.old.ticks < 65536) × (self.old.cycles ≤ 196608) × (stepped.cycles ≤ 3) × Holds stepped.export self.old.exports exports.old }
        ensures { Counts self.old stepped exports.old self.new exports.new }
    {
        self.ticks += 1;
        self.cycles += stepped.cycles;
        if let Some(export) = stepped.export {
            exports[self.exports] = export;
            self.exports += 1;
        }
    }
}

impl Board {
    // One tick after another; `ticks` are few and small enough.
    fn run_ticks<M: Memory>(
        &mut self,
        image: &[u32],
        ticks: &[u16],
        memory: &mut M,
        exports: &mut [u32],
    ) -> RunReport
        requires { (length image.now ≤ 4096) × (length ticks.now ≤ 65536) }
        ensures run { Reports (ran image.now (length exports.old) ticks.now (core_of self.old) (M.meaning memory.old)) result exports.old (core_of self.new) (M.meaning memory.new) exports.new }
        ensures rest { M.frame memory.new ≡ M.frame memory.old }
    {
        let mut report = RunReport {
            ticks: 0,
            cycles: 0,
            exports: 0,
            stop: None,
            pc: self.pc,
        };
        for tick in ticks {
            match self.advance(image, report.exports < exports.len(), *tick, memory) {
                Ok(stepped) => report.count(stepped, exports),
                Err(refusal) => {
                    report.stop = Some(refusal);
                    report.pc = self.pc;
                    return report;
                }
            }
        }
        report.pc = self.pc;
        report
    }

    // Spends the ticks one after another, until one stops.
    #[tactic(auto, using(crate::proofs::Laws::machine_laws))]
    pub fn run<M: Memory>(
        &mut self,
        image: &[u32],
        ticks: &[u16],
        memory: &mut M,
        exports: &mut [u32],
    ) -> Result<RunReport, Refusal>
        ensures run { Runs image.now ticks.now (core_of self.old) (M.meaning memory.old) exports.old result (core_of self.new) (M.meaning memory.new) exports.new }
        ensures rest { M.frame memory.new ≡ M.frame memory.old }
        ensures laws { MachineLaws }
        ensures examples { WorkedExamples }
    {
        check(image, ticks)?;
        Ok(self.run_ticks(image, ticks, memory, exports))
    }

    // One step: the word at pc, or an interrupt entry.
    pub fn step<M: Memory>(
        &mut self,
        image: &[u32],
        tick: u16,
        memory: &mut M,
    ) -> Result<Stepped, Refusal>
        ensures step { Steps (lone image.now tick (core_of self.old) (M.meaning memory.old)) (core_of self.old) (M.meaning memory.old) result (core_of self.new) (M.meaning memory.new) }
        ensures rest { M.frame memory.new ≡ M.frame memory.old }
    {
        check(image, &[tick])?;
        self.advance(image, true, tick, memory)
    }
}
