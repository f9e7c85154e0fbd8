//! What every bank gives.
ghost use Rattle.banks.specs.Calls.{answered, asked_reach, fetched, reach_answer, reach_set, sizes_of, store_answer, stored};
ghost use Rattle.banks.specs.Making.{layer_fault, settled};
ghost use Rattle.banks.specs.Meaning.{Lawful, Meaning};
ghost use Rattle.std.specs.Prelude.{◌≡◌};

use super::fault::BankFault;
use super::record::{Record, Sizes};

/// A bank of stations. Its meaning says its kind and sizes, how each station stands, and which record each station keeps
/// for each entry; every bank's meaning keeps the laws. A bank whose making was refused is a bank without stations, which
/// tells why by a `refusal` of its own.
pub trait Bank {
    ghost meaning: { Self → Meaning };

    /// The kind number, and how many stations and entries there are.
    fn sizes(&self) -> Sizes
        ensures { result ≡ sizes_of (meaning self.now) };

    /// Whether the station is in reach.
    fn in_reach(&self, station: u32) -> Result<bool, BankFault>
        ensures { result ≡ asked_reach (meaning self.now) station };

    /// The record that the station keeps for the entry.
    fn fetch(&self, station: u32, entry: u32) -> Result<Record, BankFault>
        ensures { result ≡ fetched (meaning self.now) station entry };

    /// Makes this the record that the station keeps for the entry, and alters nothing else.
    fn store(&mut self, station: u32, entry: u32, kept: Record) -> Result<(), BankFault>
        ensures answer { result ≡ store_answer (meaning self.old) station entry kept }
        ensures after { meaning self.new ≡ stored (meaning self.old) station entry kept };

    /// Makes the station in reach, or away, and alters nothing else.
    fn set_reach(&mut self, station: u32, reach: bool) -> Result<(), BankFault>
        ensures answer { result ≡ reach_answer (meaning self.old) station }
        ensures after { meaning self.new ≡ reach_set (meaning self.old) station reach };

    ghost lawful: { (b : Self) → Lawful (meaning b) };
}

/// The sizes of the bank below a layer, which it is asked for once. Refused are a layer over an empty bank, and one whose list
/// has not a member for each station of the bank below.
pub fn sizes_below<B: Bank>(below: &B, members: usize) -> Result<Sizes, BankFault>
    ensures { result ≡ answered (layer_fault members (B.Bank.meaning below.now)) (sizes_of (B.Bank.meaning below.now)) }
{
    let sizes = below.sizes();
    if !sizes.allowed() {
        Err(BankFault::Sizes)
    } else if members != sizes.stations as usize {
        Err(BankFault::Length(sizes.stations))
    } else {
        Ok(sizes)
    }
}

/// Refuses a layer over an empty bank, and one whose list has not a member for each station of the bank below.
pub fn check_layer<B: Bank>(below: &B, members: usize) -> Result<(), BankFault>
    ensures { result ≡ answered (layer_fault members (B.Bank.meaning below.now)) tt }
{
    sizes_below(below, members)?;
    Ok(())
}

/// The sizes of a layer: those of the bank below, or none where the layer was refused.
pub fn layer_sizes<B: Bank>(below: &B, refusal: Option<BankFault>) -> Sizes
    ensures { result ≡ sizes_of (settled refusal (B.Bank.meaning below.now)) }
{
    match refusal {
        None => below.sizes(),
        Some(_) => Sizes::default(),
    }
}
