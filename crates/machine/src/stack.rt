// The call stack: sixteen entries, the newest on top.
ghost use Rattle.std.specs.Prelude.{◌≡◌, ◌≤◌, length};

mod methods;

// How many entries a stack has.
pub const MOST_ENTRIES: usize = 16;

// Where to go on, with the flags of then.
#[derive(Clone, Copy, Debug, PartialEq, Eq)]
pub struct Entry {
    pub address: usize,
    pub carry: bool,
    pub zero: bool,
}

// An array of sixteen beside a depth: a rule of the project names this form.
#[derive(Clone, Copy)]
pub struct Stack {
    entries: [Entry; MOST_ENTRIES],
    depth: usize,
    ghost few: { depth ≤ 16 },
    ghost sixteen: { length entries ≡ 16 },
}
