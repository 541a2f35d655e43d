// A third kind of fact, to show that one needs nothing but its laws.
ghost use Rattle.trials.specs.Reach.{reach, reach_laws};

use facts::fact::Fact;
use words::instruction::Instruction;

// Whether an address can be reached.
#[derive(Clone, Copy, Debug, PartialEq, Eq)]
pub struct Reach {
    pub reached: bool,
}

impl Fact for Reach {
    ghost kind = { reach };

    ghost laws = { reach_laws };

    fn bottom() -> Reach {
        Reach { reached: false }
    }

    fn join(self, other: Reach) -> Reach {
        Reach {
            reached: self.reached | other.reached,
        }
    }

    fn covers(self, other: Reach) -> bool {
        self.reached | !other.reached
    }

    fn past(self, _instruction: Instruction) -> Reach {
        self
    }

    fn enter(self) -> Reach {
        self
    }

    fn resume(self, _summary: Reach) -> Reach {
        self
    }

    fn names(_word: u32) -> bool {
        false
    }
}
