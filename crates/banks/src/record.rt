//! Records, and the sizes of a bank.
ghost use Rattle.banks.specs.Calls.{answered, asked_reach, fetch_fault, first, no_entry, no_station, sizes_of};
ghost use Rattle.banks.specs.Limits.{allowed_sizes, first_record, within};
ghost use Rattle.banks.specs.Making.{sizes_for};
ghost use Rattle.banks.specs.Meaning.{Meaning};
ghost use Rattle.std.specs.Prelude.{◌≡◌, true, false, [], ◌∷◌, MatchOption};

use super::fault::BankFault;
use values::value::{Payloads, Value};

/// What a station keeps for an entry: a number that rises with each writing, and the payloads of a value.
#[derive(Clone, Copy, PartialEq, Eq, Debug)]
pub struct Record {
    pub number: u32,
    pub payloads: Payloads,
}

impl Record {
    /// Whether the number is 1 to 65,535 and each payload at most 268,435,455.
    pub fn in_limits(&self) -> bool
        ensures { result ≡ within self.now }
    {
        let Payloads {
            first,
            second,
            third,
            fourth,
        } = self.payloads;
        (1..=65_535).contains(&self.number)
            && [first, second, third, fourth]
                .iter()
                .all(|&payload| payload <= 268_435_455)
    }
}

/// A record that is in its limits.
#[derive(Clone, Copy, PartialEq, Eq, Debug)]
pub struct Kept {
    plain: Record,
    ghost fits: { within plain ≡ true },
}

impl Kept {
    /// The record as one in its limits; `None` where it is not, since the refusal tells the entry, which a record does not
    /// know.
    pub fn new(plain: Record) -> Option<Kept>
        ensures { MatchOption result (within plain ≡ false) (λ k. k.plain ≡ plain) }
    {
        if plain.in_limits() {
            Some(Kept { plain })
        } else {
            None
        }
    }

    /// The record of a value at number 1.
    pub fn first<V: Value>(value: &V) -> Kept
        ensures { result.plain ≡ first_record (V.Value.coded value.now) }
    {
        Kept {
            plain: Record {
                number: 1,
                payloads: value.code(),
            },
        }
    }

    /// The record itself.
    pub fn get(&self) -> Record
        ensures { result ≡ self.now.plain }
    {
        self.plain
    }
}

/// The kind number of the values in a bank, and how many stations and entries it has. The kind is a number, since an
/// image may be one of values of a kind that is not known here.
#[derive(Clone, Copy, PartialEq, Eq, Debug, Default)]
pub struct Sizes {
    pub kind: u32,
    pub stations: u32,
    pub entries: u32,
}

impl Sizes {
    /// The sizes of a bank for values of this kind; refused where they or the kind are out of their limits.
    pub fn of<V: Value>(stations: u32, entries: u32) -> Result<Sizes, BankFault>
        ensures { result ≡ sizes_for V.Value.KIND stations entries }
    {
        let sizes = Sizes {
            kind: V::KIND,
            stations,
            entries,
        };
        if sizes.allowed() {
            Ok(sizes)
        } else {
            Err(BankFault::Sizes)
        }
    }

    /// Whether the kind is 1 to 4,095, the stations are 1 to 64 and the entries 1 to 48.
    pub fn allowed(&self) -> bool
        ensures { result ≡ allowed_sizes self.now }
    {
        (1..=4_095).contains(&self.kind)
            && (1..=64).contains(&self.stations)
            && (1..=48).contains(&self.entries)
    }

    /// Refuses a number that is none of the stations.
    pub fn check_station(&self, station: u32) -> Result<(), BankFault>
        ensures { result ≡ answered (first (no_station self.now.stations station ∷ [])) tt }
    {
        if (1..=self.stations).contains(&station) {
            Ok(())
        } else {
            Err(BankFault::NoStation(station))
        }
    }

    /// Refuses a number that is none of the entries.
    pub fn check_entry(&self, entry: u32) -> Result<(), BankFault>
        ensures { result ≡ answered (first (no_entry self.now.entries entry ∷ [])) tt }
    {
        if (1..=self.entries).contains(&entry) {
            Ok(())
        } else {
            Err(BankFault::NoEntry(entry))
        }
    }

    /// Refuses what fetching and storing refuse of a station and an entry: a station that is none, an entry that is none, and
    /// a station that is away, in this order. `reach` is what the bank answers about the reach of the station: a function over
    /// every bank could not be called by a bank's own calls.
    pub fn check_call(
        &self,
        station: u32,
        entry: u32,
        reach: Result<bool, BankFault>,
    ) -> Result<(), BankFault>
        ensures { (b : Meaning) → self.now ≡ sizes_of b → reach ≡ asked_reach b station → result ≡ answered (fetch_fault b station entry) tt }
    {
        let reach = reach?;
        self.check_entry(entry)?;
        if reach {
            Ok(())
        } else {
            Err(BankFault::Away(station))
        }
    }
}
