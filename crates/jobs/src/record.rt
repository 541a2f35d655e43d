// One record of a job.

#[derive(Clone, Copy, Debug, PartialEq, Eq)]
pub enum Record {
    // The owned pages, first to last.
    Pages { first: u32, last: u32 },
    // The next word of the program.
    Word { word: u32 },
    // The next tick to run it on.
    Tick { tick: u16 },
}
