//! A bank that is settled while the program runs, and the layers over it.
#![tactic(auto)]

ghost use Rattle.pile.specs.Piles.{one_of};
ghost use Rattle.pile.specs.Laws.{one_lawful};

use banks::bank::Bank;
use banks::fault::BankFault;
use banks::record::{Record, Sizes};
use closing::Closing;
use imagebank::ImageBank;
use placement::Placement;
use tablebank::TableBank;

/// One of two banks, settled while the program runs.
#[derive(Drop)]
pub enum OneOf<A, B> {
    First(A),
    Second(B),
}

/// A table bank or an image bank.
pub type AnyBank = OneOf<TableBank, ImageBank>;

/// A bank, perhaps with its stations in another order.
pub type Ordered = OneOf<AnyBank, Placement<AnyBank>>;

/// A bank, perhaps with its stations in another order, perhaps with some of them shut.
pub type Pile = OneOf<Ordered, Closing<Ordered>>;

impl<A: Bank, B: Bank> Bank for OneOf<A, B> {
    ghost meaning = { one_of A.Bank.meaning B.Bank.meaning };

    ghost lawful = { one_lawful A.Bank.meaning B.Bank.meaning A.Bank.lawful B.Bank.lawful };

    fn sizes(&self) -> Sizes {
        match self {
            OneOf::First(bank) => bank.sizes(),
            OneOf::Second(bank) => bank.sizes(),
        }
    }

    fn in_reach(&self, station: u32) -> Result<bool, BankFault> {
        match self {
            OneOf::First(bank) => bank.in_reach(station),
            OneOf::Second(bank) => bank.in_reach(station),
        }
    }

    fn fetch(&self, station: u32, entry: u32) -> Result<Record, BankFault> {
        match self {
            OneOf::First(bank) => bank.fetch(station, entry),
            OneOf::Second(bank) => bank.fetch(station, entry),
        }
    }

    fn store(&mut self, station: u32, entry: u32, kept: Record) -> Result<(), BankFault> {
        match self {
            OneOf::First(bank) => bank.store(station, entry, kept),
            OneOf::Second(bank) => bank.store(station, entry, kept),
        }
    }

    fn set_reach(&mut self, station: u32, reach: bool) -> Result<(), BankFault> {
        match self {
            OneOf::First(bank) => bank.set_reach(station, reach),
            OneOf::Second(bank) => bank.set_reach(station, reach),
        }
    }
}
