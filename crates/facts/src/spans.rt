// Page spans: the intervals in which the page registers R14 and R15 lie.
ghost use Rattle.std.specs.Prelude.{◌≡◌};
ghost use Rattle.facts.specs.Spans.{point, up_to, hull, contains, moved, zero_both, hull_both, contains_both, moved_both, spans};
ghost use Rattle.facts.specs.Marks.{marks};
ghost use Rattle.facts.specs.Theorems.{SameMarked};
ghost use Rattle.facts.specs.SpansLaws.{spans_laws};

use crate::fact::Fact;
use crate::interval::Interval;
use crate::written::written;
use words::codes::Operation;
use words::instruction::Instruction;

impl Interval {
    #[tactic(auto, using(crate::specs::Intervals::same_interval))]
    pub fn point(value: u8) -> Interval
        ensures { result ≡ point value }
    {
        Interval {
            low: value,
            high: value,
        }
    }

    #[tactic(auto, using(crate::specs::Intervals::same_interval))]
    pub fn up_to(high: u8) -> Interval
        ensures { result ≡ up_to high }
    {
        Interval { low: 0, high }
    }

    // The smallest interval that contains both.
    #[tactic(auto, using(crate::specs::Intervals::same_interval))]
    pub fn hull(self, other: Interval) -> Interval
        ensures { result ≡ hull self other }
    {
        Interval {
            low: self.low.min(other.low),
            high: self.high.max(other.high),
        }
    }

    pub fn contains(self, other: Interval) -> bool
        ensures { result ≡ contains self other }
    {
        self.low <= other.low && other.high <= self.high
    }

    // Where a register lies past an instruction, if it lay in this interval.
    pub fn moved(self, register: u8, instruction: Instruction) -> Interval
        ensures { result ≡ moved register instruction self }
    {
        match written(instruction) {
            Some(rd) if rd == register => match instruction {
                Instruction::Immediate {
                    operation: Operation::Mov,
                    constant,
                    ..
                } => Interval::point(constant),
                Instruction::Immediate {
                    operation: Operation::And,
                    constant,
                    ..
                } => { Interval::up_to(constant.min(self.high)) }
                _ => Interval::up_to(255),
            },
            _ => self,
        }
    }
}

// Where the page registers lie: the low one and the high one.
#[derive(Clone, Copy, Debug, PartialEq, Eq)]
pub struct PageSpans {
    pub r14: Interval,
    pub r15: Interval,
}

impl PageSpans {
    // Both registers are 0.
    pub fn zero() -> PageSpans
        ensures { result ≡ zero_both }
    {
        PageSpans {
            r14: Interval::point(0),
            r15: Interval::point(0),
        }
    }

    // The smallest spans that contain both.
    pub(crate) fn hull(self, other: PageSpans) -> PageSpans
        ensures { result ≡ hull_both self other }
    {
        PageSpans {
            r14: self.r14.hull(other.r14),
            r15: self.r15.hull(other.r15),
        }
    }

    pub(crate) fn contains(self, other: PageSpans) -> bool
        ensures { result ≡ contains_both self other }
    {
        self.r14.contains(other.r14) && self.r15.contains(other.r15)
    }

    // Where the registers lie past an instruction, if they lay here.
    pub(crate) fn moved(self, instruction: Instruction) -> PageSpans
        ensures { result ≡ moved_both instruction self }
    {
        PageSpans {
            r14: self.r14.moved(14, instruction),
            r15: self.r15.moved(15, instruction),
        }
    }
}

// None where no path comes.
impl Fact for Option<PageSpans> {
    ghost kind = { spans };

    ghost laws = { spans_laws };

    fn bottom() -> Option<PageSpans> {
        None
    }

    fn join(self, other: Option<PageSpans>) -> Option<PageSpans> {
        match (self, other) {
            (Some(here), Some(there)) => Some(here.hull(there)),
            _ => self.or(other),
        }
    }

    fn covers(self, other: Option<PageSpans>) -> bool {
        other.is_none_or(|there| self.is_some_and(|here| here.contains(there)))
    }

    fn past(self, instruction: Instruction) -> Option<PageSpans> {
        self.map(|here| here.moved(instruction))
    }

    fn enter(self) -> Option<PageSpans> {
        self
    }

    fn resume(self, summary: Option<PageSpans>) -> Option<PageSpans> {
        self.and(summary)
    }

    fn names(_word: u32) -> bool {
        true
    }
}

// The law that smallest page spans are known exactly where smallest frame marks are.
pub fn spans_where_marked()
    ensures { SameMarked marks spans }
{}
