// Inspection of an image.
ghost use Rattle.ledger.specs.Laws.{LedgerLaws};
ghost use Rattle.ledger.specs.Limits.{SafetyWithin};
ghost use Rattle.inspection.specs.Examples.{WorkedExamples};
ghost use Rattle.inspection.specs.Inspects.{Inspects, OneVerdict};

use crate::checking::check;
use crate::judging::certify;
use crate::passed::PassedImage;
use ledger::owned::OwnedPages;
use ledger::row::Row;
use refusals::Refusal;

// Passes an image with its smallest ledger in the lent rows, or refuses it, exactly when it has no ledger. Nothing is
// allocated.
#[tactic(auto, using(ledger::proofs::Performing::safety_within, ledger::proofs::Uniqueness::ledger_laws, crate::proofs::Examples::examples_hold))]
pub fn inspect<'a>(
    words: &'a [u32],
    owned: OwnedPages,
    rows: &mut [Row],
) -> Result<PassedImage<'a>, Refusal>
    ensures answer { Inspects words.now owned rows.old result rows.new }
    ensures safety { SafetyWithin }
    ensures laws { LedgerLaws }
    ensures once { OneVerdict }
    ensures examples { WorkedExamples }
{
    check(words, owned, rows.len())?;
    let count = words.len();
    let depth = certify(words, owned, &mut rows[0..count])?;
    Ok(PassedImage::new(words, owned, depth))
}
