//! A layer over a bank that puts its stations into another order.
#![tactic(auto)]

ghost use Rattle.banks.specs.Calls.{answered, first, no_station};
ghost use Rattle.placement.specs.Placing.{placing, placing_fault, retold, retold_answer};
ghost use Rattle.places.specs.Places.{first_wrong, place_of};
ghost use Rattle.std.specs.Prelude.{◌≡◌, [], ◌∷◌};
ghost use Rattle.placement.specs.Placings.{placing_lawful};

use banks::bank::{Bank, check_layer, layer_sizes};
use banks::fault::BankFault;
use banks::record::{Record, Sizes};
use places::first_wrong;

/// A bank whose copy c stands at the station of the bank below that a list names at c.
#[derive(Drop)]
pub struct Placement<B> {
    inner: B,
    places: Vec<u32>,
    // A layer over a wrong list stands, without stations, and tells which copy.
    wrong: Option<usize>,
    ghost tested: { wrong ≡ first_wrong places.items },
}

/// A refusal of the bank below, told of the copy.
fn retell(copy: u32, fault: BankFault) -> BankFault
    ensures { result ≡ retold copy fault }
{
    match fault {
        BankFault::NoStation(_) => BankFault::NoStation(copy),
        BankFault::Away(_) => BankFault::Away(copy),
        BankFault::Shut(_) => BankFault::Shut(copy),
        other => other,
    }
}

/// An answer of the bank below, a refusal told of the copy.
fn tell<T>(copy: u32, answer: Result<T, BankFault>) -> Result<T, BankFault>
    ensures { result ≡ retold_answer copy answer }
{
    answer.map_err(|fault| retell(copy, fault))
}

impl<B: Bank> Placement<B> {
    /// The bank below with copy c at the station that the list names at c. Where the bank below is empty, or the list has not
    /// a place for each of its stations, or a place is no station or named twice, an empty bank that tells so.
    pub fn new(inner: B, places: Vec<u32>) -> Placement<B>
        ensures { (result.inner ≡ inner) × (result.places ≡ places) }
    {
        let wrong = first_wrong(places.as_slice());
        Placement {
            inner,
            places,
            wrong,
        }
    }

    /// Why the bank is empty, if its making was refused.
    pub fn refusal(&self) -> Option<BankFault>
        ensures { result ≡ placing_fault self.now.places.items (B.Bank.meaning self.now.inner) }
    {
        if let Err(fault) = check_layer(&self.inner, self.places.len()) {
            return Some(fault);
        }
        let copy = self.wrong?;
        Some(BankFault::Place(copy as u32))
    }

    /// The station of a copy; refused where there is no such copy.
    fn station_of(&self, copy: u32) -> Result<u32, BankFault>
        ensures { result ≡ answered (first (no_station (placing self.now.places.items (B.Bank.meaning self.now.inner)).n copy ∷ [])) (place_of self.now.places.items copy) }
    {
        self.sizes().check_station(copy)?;
        Ok(self.places[copy as usize - 1])
    }
}

impl<B: Bank> Bank for Placement<B> {
    ghost meaning = { λ p. placing p.places.items (B.Bank.meaning p.inner) };

    ghost lawful = { λ p. placing_lawful p.places.items (B.Bank.meaning p.inner) (B.Bank.lawful p.inner) };

    fn sizes(&self) -> Sizes {
        layer_sizes(&self.inner, self.refusal())
    }

    fn in_reach(&self, station: u32) -> Result<bool, BankFault> {
        let below = self.station_of(station)?;
        tell(station, self.inner.in_reach(below))
    }

    fn fetch(&self, station: u32, entry: u32) -> Result<Record, BankFault> {
        let below = self.station_of(station)?;
        tell(station, self.inner.fetch(below, entry))
    }

    fn store(&mut self, station: u32, entry: u32, kept: Record) -> Result<(), BankFault> {
        let below = self.station_of(station)?;
        tell(station, self.inner.store(below, entry, kept))
    }

    fn set_reach(&mut self, station: u32, reach: bool) -> Result<(), BankFault> {
        let below = self.station_of(station)?;
        tell(station, self.inner.set_reach(below, reach))
    }
}
