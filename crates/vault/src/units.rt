// The units of a run: gold fund units in a table, or coins over certificates in vaults.
ghost use Rattle.book.specs.Bundles.{bundled};
ghost use Rattle.book.specs.Opening.{Exactly, Fit};
ghost use Rattle.vault.specs.declared.units.Units.TheVariants.{Coin, Fund};
ghost use Rattle.vault.specs.Parts.{slot_amounts};
ghost use Rattle.vault.specs.Units.{CoinsOf, FundOf};
ghost use Rattle.std.proofs.Common.{arith};
ghost use Rattle.book.specs.BundlesLemmas.{sum-bundled};

use crate::split::VAULTS;
use crate::vault::Vaults;
use book::{Book, BookFault, Bundle, OpeningFault, Table};

const CERTIFICATES_A_COIN: u64 = 100;

#[derive(Drop)]
pub enum Units {
    Fund(Table),
    Coin(Bundle<Vaults>),
}

impl Units {
    pub fn open_fund(held: Vec<u64>) -> Result<Units, OpeningFault>
        ensures { Exactly (Fit held.items) (FundOf held.items) OpeningFault.Size result }
    {
        Ok(Units::Fund(Table::open(held)?))
    }

    // The vaults of each slot hold certificates, of which a hundred make a coin.
    pub fn open_coins(certificates: Vec<[u64; VAULTS]>) -> Result<Units, OpeningFault>
        ensures { Exactly (Fit (slot_amounts certificates.items)) (CoinsOf certificates.items) OpeningFault.Size result }
    {
        let vaults = Vaults::open(certificates)?;
        let coins = Bundle::open(vaults, CERTIFICATES_A_COIN)?;
        Ok(Units::Coin(coins))
    }
}

// Each call matches for itself, since no function may hand out the book inside as a `dyn`.
impl Book for Units {
    ghost amounts = { λ u. elim u [ Fund t ↦ t.held.items | Coin b ↦ bundled b.factor (slot_amounts b.below.rows.items) ] };

    ghost bounded = { elim [
      | Fund t ↦ t.fit.most
      | Coin b ↦ omega (arith, sum-bundled b.factor (slot_amounts b.below.rows.items), b.below.fit.most)
    ] };

    fn slots(&self) -> usize {
        match self {
            Units::Fund(table) => table.slots(),
            Units::Coin(bundle) => bundle.slots(),
        }
    }

    fn amount(&self, slot: usize) -> Result<u64, BookFault> {
        match self {
            Units::Fund(table) => table.amount(slot),
            Units::Coin(bundle) => bundle.amount(slot),
        }
    }

    fn transfer(&mut self, from: usize, to: usize, amount: u64) -> Result<(), BookFault> {
        match self {
            Units::Fund(table) => table.transfer(from, to, amount),
            Units::Coin(bundle) => bundle.transfer(from, to, amount),
        }
    }
}
