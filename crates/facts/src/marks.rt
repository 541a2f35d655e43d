// Frame marks: whether an address can run in the outer frame, in a routine's frame, or in both.
ghost use Rattle.std.specs.Prelude.{◌≡◌, Some};
ghost use Rattle.facts.specs.Marks.{marks, any_frame, marks_text};
ghost use Rattle.facts.specs.MarksLaws.{marks_laws};

use crate::fact::Fact;
use std::fmt;
use words::instruction::Instruction;

#[derive(Clone, Copy, Debug, PartialEq, Eq)]
pub struct FrameMarks {
    pub outer: bool,
    pub routine: bool,
}

impl FrameMarks {
    // Nothing comes here.
    pub const UNMARKED: FrameMarks = FrameMarks {
        outer: false,
        routine: false,
    };

    // The marks with which a context starts.
    pub const OUTERMOST: FrameMarks = FrameMarks {
        outer: true,
        routine: false,
    };

    // Whether the address can run in any frame.
    pub fn is_marked(self) -> bool
        ensures { result ≡ any_frame self }
    {
        self.outer || self.routine
    }
}

impl Fact for FrameMarks {
    ghost kind = { marks };

    ghost laws = { marks_laws };

    fn bottom() -> FrameMarks {
        FrameMarks::UNMARKED
    }

    fn join(self, other: FrameMarks) -> FrameMarks {
        FrameMarks {
            outer: self.outer | other.outer,
            routine: self.routine | other.routine,
        }
    }

    fn covers(self, other: FrameMarks) -> bool {
        (self.outer | !other.outer) & (self.routine | !other.routine)
    }

    fn past(self, _instruction: Instruction) -> FrameMarks {
        self
    }

    fn enter(self) -> FrameMarks {
        FrameMarks {
            outer: false,
            routine: self.is_marked(),
        }
    }

    fn resume(self, _summary: FrameMarks) -> FrameMarks {
        self
    }

    fn names(_word: u32) -> bool {
        false
    }
}

impl fmt::Display for FrameMarks {
    ghost output = { λ marks. Some (marks_text marks) };

    fn fmt<W: fmt::Write>(&self, f: &mut fmt::Formatter<W>) -> fmt::Result {
        f.write_str(match (self.outer, self.routine) {
            (true, true) => "OR",
            (true, false) => "O",
            (false, true) => "R",
            (false, false) => "-",
        })
    }
}
