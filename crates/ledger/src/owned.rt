// The pages that a program may reach, first to last.

#[derive(Clone, Copy, Debug, PartialEq, Eq)]
pub struct OwnedPages {
    pub first: u32,
    pub last: u32,
}
