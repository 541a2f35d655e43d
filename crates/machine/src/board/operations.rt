// What the arithmetic, rotate and flag words do to the board.
ghost use Rattle.std.specs.Prelude.{◌≡◌, ◌+◌, ◌<◌};
ghost use Rattle.machine.specs.Arithmetic.{sum, difference, computed, rotated, bit, operated, settled, flagged};
ghost use Rattle.machine.specs.Cores.{core_of, register};

use crate::board::Board;
use words::codes::{FlagChange, Operation, Rotation};

// A result and the carry that goes with it.
#[derive(Clone, Copy)]
struct Outcome {
    value: u8,
    carry: bool,
}

fn plus(a: u8, b: u8, carry: bool) -> Outcome
    ensures { result ≡ sum a (b + bit carry) }
{
    let (value, carry) = a.carrying_add(b, carry);
    Outcome { value, carry }
}

fn minus(a: u8, b: u8, carry: bool) -> Outcome
    ensures { result ≡ difference a (b + bit carry) }
{
    let (value, carry) = a.borrowing_sub(b, carry);
    Outcome { value, carry }
}

fn compute(operation: Operation, carry: bool, a: u8, b: u8) -> Outcome
    ensures { result ≡ computed operation carry a b }
{
    match operation {
        Operation::Sub | Operation::Cmp => minus(a, b, false),
        Operation::Subc => minus(a, b, carry),
        Operation::Add => plus(a, b, false),
        Operation::Addc => plus(a, b, carry),
        Operation::Mov => Outcome { value: b, carry },
        Operation::And | Operation::Test => Outcome {
            value: a & b,
            carry,
        },
        Operation::Or => Outcome {
            value: a | b,
            carry,
        },
        Operation::Xor => Outcome {
            value: a ^ b,
            carry,
        },
    }
}

#[tactic(auto, using(crate::proofs::Rotations::turned_right, crate::proofs::Rotations::turned_left))]
fn rotate(rotation: Rotation, carry: bool, b: u8) -> Outcome
    ensures { result ≡ rotated rotation carry b }
{
    match rotation {
        Rotation::Ror => Outcome {
            value: b.rotate_right(1),
            carry,
        },
        Rotation::Rol => Outcome {
            value: b.rotate_left(1),
            carry,
        },
        Rotation::Rorc => Outcome {
            value: 128 * u8::from(carry) + b / 2,
            carry: b % 2 == 1,
        },
        Rotation::Rolc => Outcome {
            value: (b % 128) * 2 + u8::from(carry),
            carry: b / 128 == 1,
        },
    }
}

impl Board {
    pub(crate) fn operate(&mut self, operation: Operation, rd: u8, second: u8)
        requires { rd < 32 }
        ensures { core_of self.new ≡ operated operation rd second (core_of self.old) }
    {
        let outcome = compute(operation, self.carry, self.register(rd), second);
        self.set_flags(outcome.carry, outcome.value == 0);
        match operation {
            Operation::Cmp | Operation::Test => {}
            _ => self.set_register(rd, outcome.value),
        }
    }

    pub(crate) fn turn(&mut self, rotation: Rotation, rd: u8, rb: u8)
        requires { (rd < 32) × (rb < 32) }
        ensures { core_of self.new ≡ settled rd (rotated rotation (core_of self.old).carry (register (core_of self.old) rb)) (core_of self.old) }
    {
        let turned = rotate(rotation, self.carry, self.register(rb));
        self.set_flags(turned.carry, turned.value == 0);
        self.set_register(rd, turned.value);
    }

    pub(crate) fn change_flag(&mut self, change: FlagChange)
        ensures { core_of self.new ≡ flagged change (core_of self.old) }
    {
        match change {
            FlagChange::Clrc => self.carry = false,
            FlagChange::Setc => self.carry = true,
            FlagChange::Clrz => self.zero = false,
            FlagChange::Setz => self.zero = true,
            FlagChange::Clri => self.enabled = false,
            FlagChange::Seti => self.enabled = true,
        }
    }
}
