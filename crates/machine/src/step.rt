// What a step is given beside the board, and what it answers.
ghost use Rattle.std.specs.Prelude.{◌≤◌};

#[derive(Clone, Copy)]
pub(crate) struct Moment {
    // How many words the image has.
    pub(crate) words: usize,
    // Whether the export list has room.
    pub(crate) room: bool,
    // The byte of a port and, above it, the interrupt line: one number, by a rule of the project.
    pub(crate) tick: u16,
    ghost few: { words ≤ 4096 },
}

#[derive(Clone, Copy, Debug, PartialEq, Eq)]
pub struct Stepped {
    pub cycles: u32,
    // The page, the offset and the byte of an export, from high to low: one number, by a rule of the project.
    pub export: Option<u32>,
}

impl Stepped {
    // Of a word that reaches neither a port nor the memory, and of an interrupt entry.
    pub(crate) const PLAIN: Stepped = Stepped {
        cycles: 2,
        export: None,
    };

    // Of a word that does, and exports nothing.
    pub(crate) const TRANSFER: Stepped = Stepped {
        cycles: 3,
        export: None,
    };
}
