// What the machine does with its call stack.
ghost use Rattle.std.specs.Prelude.{◌≡◌, ◌<◌, [], ◌∷◌, length};
ghost use Rattle.machine.specs.Stacks.{stack_of, top_of, rest_of};

use crate::stack::{Entry, MOST_ENTRIES, Stack};

const BLANK: Entry = Entry {
    address: 0,
    carry: false,
    zero: false,
};

impl Stack {
    pub fn new() -> Stack
        ensures { stack_of result ≡ [] }
    {
        Stack {
            entries: [BLANK; MOST_ENTRIES],
            depth: 0,
        }
    }

    #[tactic(auto, using(crate::proofs::Stacks::length_newest))]
    pub fn depth(&self) -> usize
        ensures { result ≡ length (stack_of self.now) }
    {
        self.depth
    }

    // One entry more on top, if there is room.
    #[tactic(auto, using(crate::proofs::Stacks::length_newest, crate::proofs::Stacks::newest_push))]
    pub(crate) fn push(&mut self, entry: Entry)
        requires { length (stack_of self.old) < 16 }
        ensures { stack_of self.new ≡ entry ∷ stack_of self.old }
    {
        self.entries[self.depth] = entry;
        self.depth += 1;
    }

    // The newest entry.
    #[tactic(auto, using(crate::proofs::Stacks::newest_top))]
    pub(crate) fn top(&self) -> Option<Entry>
        ensures { result ≡ top_of (stack_of self.now) }
    {
        let newest = self.depth.checked_sub(1)?;
        Some(self.entries[newest])
    }

    // Takes the newest entry off.
    #[tactic(auto, using(crate::proofs::Stacks::newest_pop))]
    pub(crate) fn pop(&mut self)
        ensures { stack_of self.new ≡ rest_of (stack_of self.old) }
    {
        self.depth = self.depth.saturating_sub(1);
    }
}
