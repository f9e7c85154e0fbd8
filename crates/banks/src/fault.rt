//! What banks refuse.
ghost use Rattle.banks.specs.Faults.{bank_line};
ghost use Rattle.faults.specs.Line.{refusal_text, told};
ghost use Rattle.std.specs.Prelude.{Some};
ghost use Rattle.std.proofs.Common.{rules};

use faults::{Fault, Layer, Refusal};
use std::fmt;

/// Why a bank refuses a call, or was not made.
#[derive(Clone, Copy, PartialEq, Eq, Debug)]
pub enum BankFault {
    /// The bank has no such entry.
    NoEntry(u32),
    /// The bank has no such station.
    NoStation(u32),
    /// The station is away.
    Away(u32),
    /// The record to store at this entry is out of its limits.
    OutOfLimits(u32),
    /// The station is shut.
    Shut(u32),
    /// The sizes or the kind are out of their limits.
    Sizes,
    /// A list has another length than this one.
    Length(u32),
    /// The place of this copy is no station, or that of an earlier copy.
    Place(u32),
    /// The word at this place is against the format.
    Word(u32),
}

impl Fault for BankFault {
    ghost line = { bank_line };

    ghost place_listed = { Prim.search rules };

    fn refusal(&self) -> Refusal {
        let (number, place) = match self {
            BankFault::NoEntry(entry) => (1, *entry),
            BankFault::NoStation(station) => (2, *station),
            BankFault::Away(station) => (3, *station),
            BankFault::OutOfLimits(entry) => (4, *entry),
            BankFault::Shut(station) => (5, *station),
            BankFault::Sizes => (13, 0),
            BankFault::Length(length) => (14, *length),
            BankFault::Place(copy) => (17, *copy),
            BankFault::Word(place) => (19, *place),
        };
        Refusal {
            number,
            layer: Layer::Bank,
            place,
        }
    }
}

impl fmt::Display for BankFault {
    ghost output = { λ f. Some (refusal_text (told (bank_line f))) };

    fn fmt<W: fmt::Write>(&self, f: &mut fmt::Formatter<W>) -> fmt::Result {
        let refusal = self.refusal();
        write!(f, "{refusal}")
    }
}
