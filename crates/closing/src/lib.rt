//! A layer over a bank that shuts some of its stations.
#![tactic(auto)]

ghost use Rattle.banks.specs.Calls.{answered, sizes_of};
ghost use Rattle.closing.specs.Closing.{barred, closing, closing_fault, is_shut};
ghost use Rattle.std.specs.Prelude.{◌≡◌};
ghost use Rattle.closing.specs.Closings.{closing_lawful};

use banks::bank::{Bank, sizes_below};
use banks::fault::BankFault;
use banks::record::{Record, Sizes};

/// A bank some of whose stations are shut: those whose mark, a byte as in the lists of a rule, is not 0.
#[derive(Drop)]
pub struct Closing<B> {
    inner: B,
    marks: Vec<u8>,
}

impl<B: Bank> Closing<B> {
    /// The bank below with the stations shut whose marks are not 0. Where the bank below is empty, or the marks are not one
    /// for each of its stations, an empty bank that tells so.
    pub fn new(inner: B, marks: Vec<u8>) -> Closing<B>
        ensures { (result.inner ≡ inner) × (result.marks ≡ marks) }
    {
        Closing { inner, marks }
    }

    /// Why the bank is empty, if its making was refused.
    pub fn refusal(&self) -> Option<BankFault>
        ensures { result ≡ closing_fault self.now.marks.items (B.Bank.meaning self.now.inner) }
    {
        self.made().err()
    }

    /// The sizes of the layer, or why its making was refused.
    fn made(&self) -> Result<Sizes, BankFault>
        ensures { result ≡ answered (closing_fault self.now.marks.items (B.Bank.meaning self.now.inner)) (sizes_of (B.Bank.meaning self.now.inner)) }
    {
        sizes_below(&self.inner, self.marks.len())
    }

    /// Whether the station is shut.
    fn is_shut(&self, station: u32) -> bool
        ensures { result ≡ is_shut self.now.marks.items station }
    {
        station != 0
            && self
                .marks
                .get(station as usize - 1)
                .is_some_and(|&mark| mark != 0)
    }

    /// Refuses a station that is none, an entry that is none, and a station that is shut, in this order. Whether one that is
    /// not shut is away, the bank below tells.
    fn check(&self, station: u32, entry: u32) -> Result<(), BankFault>
        ensures { result ≡ answered (barred self.now.marks.items (closing self.now.marks.items (B.Bank.meaning self.now.inner)) station entry) tt }
    {
        let sizes = self.sizes();
        sizes.check_station(station)?;
        sizes.check_entry(entry)?;
        if self.is_shut(station) {
            Err(BankFault::Away(station))
        } else {
            Ok(())
        }
    }
}

impl<B: Bank> Bank for Closing<B> {
    ghost meaning = { λ c. closing c.marks.items (B.Bank.meaning c.inner) };

    ghost lawful = { λ c. closing_lawful c.marks.items (B.Bank.meaning c.inner) (B.Bank.lawful c.inner) };

    fn sizes(&self) -> Sizes {
        self.made().unwrap_or_default()
    }

    fn in_reach(&self, station: u32) -> Result<bool, BankFault> {
        self.sizes().check_station(station)?;
        if self.is_shut(station) {
            return Ok(false);
        }
        self.inner.in_reach(station)
    }

    fn fetch(&self, station: u32, entry: u32) -> Result<Record, BankFault> {
        self.check(station, entry)?;
        self.inner.fetch(station, entry)
    }

    fn store(&mut self, station: u32, entry: u32, kept: Record) -> Result<(), BankFault> {
        self.check(station, entry)?;
        self.inner.store(station, entry, kept)
    }

    fn set_reach(&mut self, station: u32, reach: bool) -> Result<(), BankFault> {
        self.sizes().check_station(station)?;
        if self.is_shut(station) {
            return Err(BankFault::Shut(station));
        }
        self.inner.set_reach(station, reach)
    }
}
