// What every memory can be asked, and what it promises.
ghost use Rattle.std.specs.Prelude.{◌≡◌, ◌+◌, ◌*◌};
ghost use Rattle.memories.specs.Calls.{IfPage, Peeks, Pokes};
ghost use Rattle.memories.specs.Meaning.{Meaning, Sound};

use refusals::Refusal;

// A page's number has 16 bits.
pub(crate) const MOST_PAGES: usize = 65_536;

pub(crate) const PAGE_BYTES: usize = 256;

// Where a cell is among the bytes of so many pages, if there is such a page.
pub(crate) fn index_of(pages: u32, page: u16, offset: u8) -> Result<usize, Refusal>
    ensures { IfPage pages page (256 * page + offset) result }
{
    if u32::from(page) >= pages {
        return Err(Refusal::NoSuchPage);
    }
    Ok(PAGE_BYTES * usize::from(page) + usize::from(offset))
}

pub trait Memory {
    // Its pages, and the byte in each cell.
    ghost meaning: { Self → Meaning };

    // So each kind proves that it means a memory.
    ghost sound: { (memory : Self) → Sound (meaning memory) };

    // What it holds beside its cells, which no call changes.
    ghost Frame: { Type 0 };

    ghost frame: { Self → Frame };

    // How many pages there are.
    fn page_count(&self) -> u32
        ensures { result ≡ (meaning self.now).pages };

    // The byte of a cell. Page and offset differ in type, so that a struct of both would spare no mistake.
    fn peek(&self, page: u16, offset: u8) -> Result<u8, Refusal>
        ensures { Peeks (meaning self.now) page offset result };

    // Sets a cell.
    fn poke(&mut self, page: u16, offset: u8, byte: u8) -> Result<(), Refusal>
        ensures cells { Pokes (meaning self.old) page offset byte result (meaning self.new) }
        ensures rest { frame self.new ≡ frame self.old };
}
