// What the machine can never do on an image with a ledger.
ghost use Rattle.std.specs.Prelude.{◌≡◌};
ghost use Rattle.ledger.specs.Examples.{LedgerExamples};
ghost use Rattle.ledger.specs.Safety.{Safety};

// Holds the theorem, and an image that it speaks of: without their proofs the crate is refused.
pub fn safety_stands() -> u8
    ensures answer { result ≡ 0 }
    ensures theorem { Safety }
    ensures examples { LedgerExamples }
{
    0
}
