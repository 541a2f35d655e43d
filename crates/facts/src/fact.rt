// What a kind of fact is: what its values mean stands in `kind`, what they keep in `laws`.
ghost use Rattle.std.specs.Prelude.{◌≡◌, ◌≤◌};
ghost use Rattle.facts.specs.Kinds.{Kind};
ghost use Rattle.facts.specs.Laws.{Laws};

use words::instruction::Instruction;

pub trait Fact: Copy {
    ghost kind: { Kind Self };

    // Nothing is known to come here.
    fn bottom() -> Self
        ensures { result ≡ kind.bottom };

    // The least fact that covers both.
    fn join(self, other: Self) -> Self
        ensures value { result ≡ kind.join self other }
        ensures bounded { kind.rank result ≤ 1000 };

    fn covers(self, other: Self) -> bool
        ensures { result ≡ kind.covers self other };

    // What holds past a word, if this fact holds at it.
    fn past(self, instruction: Instruction) -> Self
        ensures { result ≡ kind.past instruction self };

    // What holds in the routine that a word calls.
    fn enter(self) -> Self
        ensures { result ≡ kind.enter self };

    // What holds after a call, where the facts at the named words join to the summary.
    fn resume(self, summary: Self) -> Self
        ensures { result ≡ kind.resume summary self };

    // Whether the summary counts the fact at such a word.
    fn names(word: u32) -> bool
        ensures { result ≡ kind.names word };

    ghost laws: { Laws kind };
}
