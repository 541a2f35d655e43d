// Where control can go from an instruction.
ghost use Rattle.std.specs.Prelude.{◌≡◌};
ghost use Rattle.facts.specs.Successors.{successors, within, inside};

use words::instruction::Instruction;

// The addresses that control can reach from an instruction in one step, by the way it takes.
#[derive(Clone, Copy)]
pub struct Successors<A> {
    // Past the instruction, to the word after it.
    pub next: Option<A>,
    // Past the instruction, to where it branches.
    pub target: Option<A>,
    // Into the routine that it calls.
    pub routine: Option<A>,
    // Behind the call, once the routine has returned.
    pub resume: Option<A>,
}

// The address itself, if it lies in an image of so many words.
fn inside(address: Option<i32>, words: usize) -> Option<usize>
    ensures { result ≡ inside words address }
{
    usize::try_from(address?)
        .ok()
        .filter(|address| *address < words)
}

impl Successors<i32> {
    // No address.
    const NOWHERE: Successors<i32> = Successors {
        next: None,
        target: None,
        routine: None,
        resume: None,
    };

    // All of them, also where no image has such an address.
    pub fn of(address: u16, instruction: Instruction) -> Successors<i32>
        ensures { result ≡ successors address instruction }
    {
        let here = i32::from(address);
        let after = Some(here + 1);
        match instruction {
            Instruction::Return | Instruction::ReturnFromInterrupt => Successors::NOWHERE,
            Instruction::Branch { offset } => Successors {
                target: Some(here + i32::from(offset)),
                ..Successors::NOWHERE
            },
            Instruction::BranchIf { offset, .. } => Successors {
                next: after,
                target: Some(here + i32::from(offset)),
                ..Successors::NOWHERE
            },
            Instruction::Call { offset } => Successors {
                routine: Some(here + i32::from(offset)),
                resume: after,
                ..Successors::NOWHERE
            },
            Instruction::CallIf { offset, .. } => Successors {
                next: after,
                routine: Some(here + i32::from(offset)),
                resume: after,
                ..Successors::NOWHERE
            },
            _ => Successors {
                next: after,
                ..Successors::NOWHERE
            },
        }
    }

    // Those that lie in an image of so many words.
    pub fn within(self, words: usize) -> Successors<usize>
        ensures { result ≡ within words self }
    {
        Successors {
            next: inside(self.next, words),
            target: inside(self.target, words),
            routine: inside(self.routine, words),
            resume: inside(self.resume, words),
        }
    }
}
