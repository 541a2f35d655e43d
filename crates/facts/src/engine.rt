// The smallest facts that flow through an image from a start. It knows a kind of fact by its laws alone.
ghost use Rattle.std.specs.Prelude.{◌≡◌, ℕ, ◌<◌, ◌≤◌, false, length, drop, slice_set};
ghost use Rattle.std.specs.Iterator.{IsFinite};
ghost use Rattle.facts.specs.Keeping.{Keeps, FlowRaises, FlowSpreads, FlowSettled, FlowVisits};
ghost use Rattle.facts.specs.Orders.{GivesBelow, GivesEach};
ghost use Rattle.facts.specs.Progress.{AddressBelow, SuccessorsBelow, CoversAt, Receives, NoneBelow, Begins, Settles, Level};
ghost use Rattle.facts.specs.Tables.{Smallest, fact_at, summary};
ghost use Rattle.facts.specs.Theorems.{SmallestLaws};

use crate::fact::Fact;
use crate::flow::Flow;
use crate::successors::Successors;
use words::MOST_WORDS;
use words::decoding::instruction_of;

// The summary is no field: beside a value of type F the lender would not learn what its table holds at the end.
impl<F: Fact> Flow<'_, '_, '_, F> {
    // Raises the fact at an address, if there is one, to cover the given fact, and flags it where that changed it.
    fn raise(&mut self, to: Option<usize>, fact: F) -> bool
        requires inside { AddressBelow (length self.old.image.now) to }
        ensures raises { FlowRaises F.kind (CoversAt F.kind to fact) self.old self.new result }
        ensures keeps { Keeps self.old self.new }
    {
        let Some(to) = to else {
            return false;
        };
        let old = self.table[to];
        if old.covers(fact) {
            return false;
        }
        self.table[to] = old.join(fact);
        self.dirty[to] = true;
        true
    }

    // Raises the fact at each successor to cover what is carried there.
    fn raise_all(&mut self, to: Successors<usize>, past: F, enter: F, resume: F) -> bool
        requires inside { SuccessorsBelow (length self.old.image.now) to }
        ensures raises { FlowRaises F.kind (Receives F.kind to past enter resume) self.old self.new result }
        ensures keeps { Keeps self.old self.new }
    {
        let next = self.raise(to.next, past);
        let target = self.raise(to.target, past);
        let routine = self.raise(to.routine, enter);
        let resumed = self.raise(to.resume, resume);
        next | target | routine | resumed
    }

    // Carries the fact at an address on to the successors of its word. Out of line, so that a round only tests the
    // flags.
    #[inline(never)]
    fn spread(&mut self, at: usize, total: F) -> bool
        requires inside { at < length self.old.image.now }
        ensures spreads { FlowSpreads F.kind total at self.old self.new result }
        ensures keeps { Keeps self.old self.new }
    {
        let Some(instruction) = instruction_of(self.image[at]) else {
            return false;
        };
        let to = Successors::of(at as u16, instruction).within(self.image.len());
        let fact = self.table[at];
        self.raise_all(to, fact.past(instruction), fact.enter(), fact.resume(total))
    }

    // Carries the fact at an address on, if it is flagged.
    fn visit(&mut self, at: usize, total: F) -> bool
        requires inside { at < length self.old.image.now }
        requires settled { FlowSettled F.kind total self.old }
        ensures visits { FlowVisits F.kind total self.old self.new result }
        ensures quiet { result ≡ false → self.new.dirty.now ≡ slice_set self.old.dirty.now at false }
        ensures keeps { Keeps self.old self.new }
    {
        if !self.dirty[at] {
            return false;
        }
        self.dirty[at] = false;
        self.spread(at, total)
    }

    // Visits the addresses in the given order.
    fn round<I: Iterator<Item = usize> + Drop>(&mut self, order: I, total: F) -> bool
        requires can { I.can_next order }
        requires ends { IsFinite (I.remaining order) }
        requires inside { GivesBelow I.next_gives order (length self.old.image.now) }
        requires settled { FlowSettled F.kind total self.old }
        ensures visits { FlowVisits F.kind total self.old self.new result }
        ensures quiet { result ≡ false → GivesEach I.next_gives order (length self.old.image.now) → NoneBelow (length self.old.image.now) self.new.dirty.now }
        ensures keeps { Keeps self.old self.new }
    {
        let mut changed = false;
        for at in order {
            changed |= self.visit(at, total);
        }
        changed
    }

    // The join of the facts at the named words, in a method, since a table that is passed on as a slice is not known
    // afterwards.
    fn gathered(&self) -> F
        ensures { result ≡ summary F.kind self.now.image.now self.now.table.now }
    {
        summary(self.image, self.table)
    }

    // Rounds until nothing changes, upwards and downwards, since facts that flow back would take a round for each step.
    // Then the summary is taken anew, and where it grew every fact is carried on again.
    fn settle(&mut self) -> F
        requires { FlowSettled F.kind F.kind.bottom self.old }
        ensures settles { Settles F.kind self.old.image.now self.old.table.now self.new.table.now result }
        ensures keeps { Keeps self.old self.new }
    {
        let words = self.image.len();
        let mut total = F::bottom();
        loop {
            if self.round(0..words, total) {
                self.round((0..words).rev(), total);
            } else {
                let gathered = self.gathered();
                if total.covers(gathered) {
                    return total;
                }
                total = total.join(gathered);
                self.dirty.fill(true);
            }
        }
    }

    // Clears the table but for the given fact at the start, if that lies in the image.
    fn begin(&mut self, start: usize, given: F)
        ensures begins { Begins F.kind self.old.image.now start given self.new.table.now self.new.dirty.now }
        ensures keeps { Keeps self.old self.new }
    {
        clear(self.table);
        if start < self.image.len() {
            self.raise(Some(start), given);
        }
    }
}

// No fact at any address. A function of its own, so that its contract alone says what that leaves.
#[tactic(auto, using(crate::proofs::Settling::folded_bottom))]
fn clear<F: Fact>(table: &mut [F])
    ensures long { length table.new ≡ length table.old }
    ensures empty { (a : ℕ) → fact_at F.kind table.new a ≡ F.kind.bottom }
{
    table.fill_with(|| F::bottom());
}

// The join of the facts at the named words.
pub fn summary<F: Fact>(image: &[u32], table: &[F]) -> F
    requires { length image.now ≤ length table.now }
    ensures { result ≡ summary F.kind image.now table.now }
{
    let mut joined = F::bottom();
    for (word, fact) in image.iter().zip(table) {
        if F::names(*word) {
            joined = joined.join(*fact);
        }
    }
    joined
}

// The method over a table and flags that are as long as the image, in a function of its own, since what is left of a
// part of a table that stands in a struct is not known.
fn flow<F: Fact>(image: &[u32], table: &mut [F], dirty: &mut [bool], start: usize, given: F) -> F
    requires { Level image.now table.old dirty.old }
    ensures smallest { Smallest F.kind image.now start given table.new }
    ensures value { result ≡ summary F.kind image.now table.new }
{
    let mut flow = Flow {
        image,
        table,
        dirty,
    };
    flow.begin(start, given);
    flow.settle()
}

// The smallest facts for the words of an image that flow from the fact given at the start, and their summary.
pub fn smallest<F: Fact>(image: &[u32], table: &mut [F], start: usize, given: F) -> F
    requires short { length image.now ≤ 4096 }
    requires long { length image.now ≤ length table.old }
    ensures smallest { Smallest F.kind image.now start given table.new }
    ensures value { result ≡ summary F.kind image.now table.new }
    ensures rest { drop (length image.now) table.new ≡ drop (length image.now) table.old }
    ensures laws { SmallestLaws F.kind }
{
    let mut dirty = [false; MOST_WORDS];
    let words = image.len();
    flow(
        image,
        &mut table[..words],
        &mut dirty[..words],
        start,
        given,
    )
}
