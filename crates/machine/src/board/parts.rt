// The board's parts: reading and changing one of them.
ghost use Rattle.std.specs.Prelude.{◌≡◌, ◌<◌};
ghost use Rattle.machine.specs.Views.{Views};
ghost use Rattle.machine.specs.Cores.{core_of, fresh, register, page_of, with_register, with_flags};

use crate::board::{Board, BoardView};
use crate::stack::Stack;

impl Board {
    // A newly reset board.
    pub fn new() -> Board
        ensures { core_of result ≡ fresh }
    {
        Board {
            registers: [0; 32],
            carry: false,
            zero: false,
            enabled: false,
            in_service: false,
            pc: 1,
            stack: Stack::new(),
        }
    }

    pub fn reset(&mut self)
        ensures { core_of self.new ≡ fresh }
    {
        *self = Board::new();
    }

    // What the board shows.
    pub fn view(&self) -> BoardView
        ensures { Views (core_of self.now) result }
    {
        BoardView {
            registers: self.registers,
            carry: self.carry,
            zero: self.zero,
            enabled: self.enabled,
            in_service: self.in_service,
            pc: self.pc,
            depth: self.stack.depth(),
        }
    }

    // That a number is below 32 stays a demand, with no type for it: an `Instruction` has to hold any number for
    // `encode` to refuse, so that each of its fields would be tested again.
    pub(crate) fn register(&self, number: u8) -> u8
        requires { number < 32 }
        ensures { result ≡ register (core_of self.now) number }
    {
        self.registers[usize::from(number)]
    }

    // The page that transfers reach.
    pub(crate) fn page(&self) -> u16
        ensures { result ≡ page_of (core_of self.now) }
    {
        u16::from_be_bytes([self.register(15), self.register(14)])
    }

    pub(crate) fn set_register(&mut self, number: u8, value: u8)
        requires { number < 32 }
        ensures { core_of self.new ≡ with_register number value (core_of self.old) }
    {
        self.registers[usize::from(number)] = value;
    }

    pub(crate) fn set_flags(&mut self, carry: bool, zero: bool)
        ensures { core_of self.new ≡ with_flags carry zero (core_of self.old) }
    {
        self.carry = carry;
        self.zero = zero;
    }
}
