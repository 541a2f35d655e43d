// The small choices that an instruction word makes, each with the number that stands for it in the word.
// A word's pattern is known before its code is read, so `from_code` asks for a known code: a `TryFrom` would have an
// error that no word meets.
ghost use Rattle.std.specs.Prelude.{◌≡◌, ◌<◌, ◌⊎◌};
ghost use Rattle.words.specs.Codes.{operation_code, rotation_code, flag_code, transfer_code, condition_code};

// What the arithmetic and logic words compute.
#[derive(Clone, Copy, Debug, PartialEq, Eq)]
pub enum Operation {
    Sub,
    Subc,
    Add,
    Addc,
    Mov,
    And,
    Or,
    Xor,
    Cmp,
    Test,
}

impl Operation {
    pub(crate) fn from_code(code: u32) -> Operation
        requires { code < 10 }
        ensures { operation_code result ≡ code }
    {
        match code {
            0 => Operation::Sub,
            1 => Operation::Subc,
            2 => Operation::Add,
            3 => Operation::Addc,
            4 => Operation::Mov,
            5 => Operation::And,
            6 => Operation::Or,
            7 => Operation::Xor,
            8 => Operation::Cmp,
            _ => Operation::Test,
        }
    }
}

// How a rotate word turns a register by one bit: right or left, alone or through the carry.
#[derive(Clone, Copy, Debug, PartialEq, Eq)]
pub enum Rotation {
    Ror,
    Rol,
    Rorc,
    Rolc,
}

impl Rotation {
    pub(crate) fn from_code(code: u32) -> Rotation
        requires { code < 4 }
        ensures { rotation_code result ≡ code }
    {
        match code {
            0 => Rotation::Ror,
            1 => Rotation::Rol,
            2 => Rotation::Rorc,
            _ => Rotation::Rolc,
        }
    }
}

// Which flag a word clears or sets: carry, zero or interrupt enable.
#[derive(Clone, Copy, Debug, PartialEq, Eq)]
pub enum FlagChange {
    Clrc,
    Setc,
    Clrz,
    Setz,
    Clri,
    Seti,
}

impl FlagChange {
    pub(crate) fn from_code(code: u32) -> FlagChange
        requires { code < 6 }
        ensures { flag_code result ≡ code }
    {
        match code {
            0 => FlagChange::Clrc,
            1 => FlagChange::Setc,
            2 => FlagChange::Clrz,
            3 => FlagChange::Setz,
            4 => FlagChange::Clri,
            _ => FlagChange::Seti,
        }
    }
}

// What moves between a register and a port or a scratchpad cell.
#[derive(Clone, Copy, Debug, PartialEq, Eq)]
pub enum Transfer {
    Export = 0,
    Import = 1,
    Store = 4,
    Load = 5,
}

impl Transfer {
    pub(crate) fn from_code(code: u32) -> Transfer
        requires { (code ≡ 0) ⊎ ((code ≡ 1) ⊎ ((code ≡ 4) ⊎ (code ≡ 5))) }
        ensures { transfer_code result ≡ code }
    {
        match code {
            0 => Transfer::Export,
            1 => Transfer::Import,
            4 => Transfer::Store,
            _ => Transfer::Load,
        }
    }
}

// The flag on which a branch or a call depends.
#[derive(Clone, Copy, Debug, PartialEq, Eq)]
pub enum Condition {
    Zero,
    NotZero,
    Carry,
    NotCarry,
}

impl Condition {
    pub(crate) fn from_code(code: u32) -> Condition
        requires { code < 4 }
        ensures { condition_code result ≡ code }
    {
        match code {
            0 => Condition::Zero,
            1 => Condition::NotZero,
            2 => Condition::Carry,
            _ => Condition::NotCarry,
        }
    }
}
