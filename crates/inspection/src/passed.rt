// An image that has passed inspection.
ghost use Rattle.std.specs.Prelude.{◌≡◌, ◌+◌, ◌*◌, ◌<◌, ◌≤◌, length};
ghost use Rattle.inspection.specs.Passing.{Certifies};
ghost use Rattle.inspection.specs.Loading.{Loads, LoadLaw, Placed};

use ledger::owned::OwnedPages;
use refusals::Refusal;

// It comes from inspection alone, and borrows its words: nobody can change them while the pass stands.
#[derive(Clone, Copy)]
pub struct PassedImage<'a> {
    words: &'a [u32],
    owned: OwnedPages,
    // How many entries its call stack can hold at the most.
    depth: usize,
    ghost certified: { ∥ Certifies words.now owned depth ∥₁ },
}

// Puts the three bytes of a word at its place, the high byte first. A call for each word, since of what is written
// through `chunks_exact_mut` a proof knows the length alone.
fn place_word(bytes: &mut [u8], address: usize, word: u32)
    requires { 3 * address + 2 < length bytes.old }
    ensures { Placed address word bytes.old bytes.new }
{
    let place = 3 * address;
    bytes[place..place + 3].copy_from_slice(&word.to_be_bytes()[1..]);
}

impl<'a> PassedImage<'a> {
    ghost use Rattle.inspection.specs.Inspects.{Certified};

    // Inspection makes it, of an image that passes.
    pub(crate) fn new(words: &'a [u32], owned: OwnedPages, depth: usize) -> PassedImage<'a>
        requires { Certifies words.now owned depth }
        ensures parts { (result.words.now ≡ words.now) × (result.owned ≡ owned) × (result.depth ≡ depth) }
        ensures certified { Certified result }
    {
        PassedImage {
            words,
            owned,
            depth,
        }
    }

    pub fn words(&self) -> &'a [u32]
        ensures { result.now ≡ self.now.words.now }
    {
        self.words
    }

    pub fn owned(&self) -> OwnedPages
        ensures { result ≡ self.now.owned }
    {
        self.owned
    }

    // The certified depth.
    pub fn depth(&self) -> usize
        ensures { result ≡ self.now.depth }
    {
        self.depth
    }

    // Writes the words as the device loads them. Only an image that has passed can be written so.
    pub fn write_load_bytes(&self, bytes: &mut [u8]) -> Result<(), Refusal>
        ensures bytes { Loads self.now.words.now bytes.old result bytes.new }
        ensures law { LoadLaw }
    {
        if bytes.len() / 3 < self.words.len() {
            return Err(Refusal::LoadBytesTooShort);
        }
        for (address, word) in self.words.iter().enumerate() {
            place_word(bytes, address, *word);
        }
        Ok(())
    }
}
