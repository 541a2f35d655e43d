// The least stack needs of the marked addresses of an image.
ghost use Rattle.std.specs.Prelude.{◌≡◌, ℕ, ◌<◌, false, length, slice_index};
ghost use Rattle.facts.specs.Progress.{AddressBelow};
ghost use Rattle.inspection.specs.Needing.{need_of, called_need, Enough, Asks};
ghost use Rattle.inspection.specs.Sheets.{reached, needed, RaisesNeeds, SettlesNeeds};

use crate::causes::is_reached;
use crate::sheet::{MOST_NEED, Sheet};
use facts::successors::Successors;
use words::decoding::instruction_of;

impl Sheet<'_, '_> {
    // What is needed at an address, if there is one.
    fn need_at(&self, to: Option<usize>) -> u8
        requires { AddressBelow (length self.now.words.now) to }
        ensures { result ≡ need_of (needed self.now) to }
    {
        to.map_or(0, |address| self.rows[address].need)
    }

    // What a call of a routine needs, if there is one: an entry, and what the routine needs as far as the stack goes.
    fn call_need(&self, to: Option<usize>) -> u8
        requires { AddressBelow (length self.now.words.now) to }
        ensures { result ≡ called_need (needed self.now) to }
    {
        to.map_or(0, |address| self.rows[address].need.min(MOST_NEED) + 1)
    }

    // What the successors of the word at an address ask for.
    fn asked(&self, at: usize) -> u8
        requires { at < length self.now.words.now }
        ensures { Asks self.now.words.now (needed self.now) at result }
    {
        match instruction_of(self.words[at]) {
            Some(instruction) => {
                let to = Successors::of(at as u16, instruction).within(self.words.len());
                let past = self.need_at(to.next).max(self.need_at(to.target));
                let call = self.call_need(to.routine).max(self.need_at(to.resume));
                past.max(call)
            }
            None => 0,
        }
    }

    // Raises the need at an address to what its successors ask for, if control can come there.
    fn raise_need(&mut self, at: usize) -> bool
        requires { at < length self.old.words.now }
        ensures raises { RaisesNeeds self.old self.new result }
        ensures enough { result ≡ false → Enough self.old.words.now (reached self.old) (needed self.old) at }
    {
        if !is_reached(self.rows[at]) {
            return false;
        }
        let need = self.asked(at);
        if need <= self.rows[at].need {
            return false;
        }
        self.rows[at].need = need;
        true
    }

    // Raises the needs at each address, first downwards, since needs come from what lies behind, then upwards for what
    // branches back.
    fn sweep(&mut self) -> bool
        ensures raises { RaisesNeeds self.old self.new result }
        ensures enough { result ≡ false → (a : ℕ) → a < length self.old.words.now → Enough self.old.words.now (reached self.old) (needed self.old) a }
    {
        let mut changed = false;
        let words = self.words.len();
        for at in (0..words).rev().chain(0..words) {
            changed |= self.raise_need(at);
        }
        changed
    }

    // Sweeps from no needs at all until nothing changes.
    pub(crate) fn settle_needs(&mut self)
        requires { (a : ℕ) → slice_index (needed self.old) a ≡ 0 }
        ensures { SettlesNeeds self.old self.new }
    {
        while self.sweep() {}
    }
}
