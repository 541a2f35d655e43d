// What is looked at before an inspection begins.
ghost use Rattle.std.specs.Prelude.{length};
ghost use Rattle.inspection.specs.First.{First};
ghost use Rattle.inspection.specs.Obstacles.{Checks, large_word};

use crate::causes::find_first;
use ledger::owned::OwnedPages;
use refusals::Refusal;
use words::fits_device;

// A word has 18 bits.
const WORD_LIMIT: u32 = 0x4_0000;

// Whether every word has 18 bits at the most.
fn check_words(image: &[u32]) -> Result<(), Refusal>
    ensures { First (length image.now) (large_word image.now) result }
{
    find_first(image.len(), |address| {
        (image[address] >= WORD_LIMIT).then_some(Refusal::WordTooLarge { address })
    })
}

// Whether the image, the owned pages and the number of rows can be inspected at all.
pub(crate) fn check(image: &[u32], owned: OwnedPages, rows: usize) -> Result<(), Refusal>
    ensures { Checks image.now owned rows result }
{
    if !fits_device(image) {
        return Err(Refusal::ImageLength);
    }
    check_words(image)?;
    if owned.first > owned.last || owned.last > 65_535 {
        return Err(Refusal::PageRange);
    }
    if rows < image.len() {
        return Err(Refusal::TooFewRows);
    }
    Ok(())
}
