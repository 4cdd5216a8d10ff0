// The bundle layer: another book, in whole bundles of a factor.
ghost use Rattle.std.specs.Prelude.{◌≡◌, ◌≤◌};
ghost use Rattle.book.specs.Bundles.{bundled};
ghost use Rattle.book.specs.Opening.{Exactly};
ghost use Rattle.std.proofs.Common.{arith};
ghost use Rattle.book.specs.BundlesLemmas.{sum-bundled};

use crate::book::Book;
use crate::fault::{BookFault, OpeningFault};

const MOST_FACTOR: u64 = 1_000;

#[derive(Drop)]
pub struct Bundle<B> {
    below: B,
    factor: u64,
    ghost low: { 1 ≤ factor },
    ghost high: { factor ≤ 1000 },
}

impl<B: Book + Drop> Bundle<B> {
    pub fn open(below: B, factor: u64) -> Result<Bundle<B>, OpeningFault>
        ensures { Exactly ((1 ≤ factor) × (factor ≤ 1000)) (λ t. (t.below ≡ below) × (t.factor ≡ factor)) OpeningFault.Factor result }
    {
        if !(1..=MOST_FACTOR).contains(&factor) {
            return Err(OpeningFault::Factor);
        }
        Ok(Bundle { below, factor })
    }
}

impl<B> Bundle<B> {
    // The book below.
    pub fn below(&self) -> &B
        ensures { result.now ≡ self.now.below }
    {
        &self.below
    }
}

impl<B: Book> Book for Bundle<B> {
    ghost amounts = { λ s. bundled s.factor (B.Book.amounts s.below) };

    ghost bounded = { λ b. omega (arith, sum-bundled b.factor (B.Book.amounts b.below), B.Book.bounded b.below) };

    fn slots(&self) -> usize {
        self.below.slots()
    }

    fn amount(&self, slot: usize) -> Result<u64, BookFault> {
        Ok(self.below.amount(slot)? / self.factor)
    }

    #[tactic(auto, using(crate::specs::BundlesLemmas::answer_below, crate::specs::BundlesLemmas::after_below))]
    fn transfer(&mut self, from: usize, to: usize, amount: u64) -> Result<(), BookFault> {
        // Beyond 64 bits it is more than any slot holds, as the largest number is.
        self.below
            .transfer(from, to, amount.saturating_mul(self.factor))
    }
}
