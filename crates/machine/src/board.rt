// The board without its memory: registers, flags, the program counter and the call stack.
ghost use Rattle.std.specs.Prelude.{◌≡◌, ◌<◌, length};

use crate::stack::Stack;

mod execution;
mod moves;
mod operations;
mod parts;
mod running;
mod stepping;

#[derive(Clone, Copy)]
pub struct Board {
    registers: [u8; 32],
    carry: bool,
    zero: bool,
    // Whether an interrupt may come in.
    enabled: bool,
    // Whether one is being handled.
    in_service: bool,
    pc: usize,
    stack: Stack,
    ghost all: { length registers ≡ 32 },
    ghost inside: { pc < 4096 },
}

// What a board shows to whoever tries a program on it.
#[derive(Clone, Copy, Debug, PartialEq, Eq)]
pub struct BoardView {
    pub registers: [u8; 32],
    pub carry: bool,
    pub zero: bool,
    pub enabled: bool,
    pub in_service: bool,
    pub pc: usize,
    // How many entries the call stack holds.
    pub depth: usize,
}
