//! What the value layer refuses.
ghost use Rattle.std.specs.Prelude.{Some};
ghost use Rattle.faults.specs.Line.{refusal_text, told};
ghost use Rattle.values.specs.Faults.{value_line};
ghost use Rattle.std.proofs.Common.{rules};

use faults::{Fault, Layer, Refusal};
use std::fmt;

/// The parts of a value, numbered by the payloads that they are coded as.
#[derive(Clone, Copy, PartialEq, Eq, Debug)]
pub enum Part {
    First = 1,
    Second = 2,
    Third = 3,
    Fourth = 4,
}

/// Why there is no value.
#[derive(Clone, Copy, PartialEq, Eq, Debug)]
pub enum ValueFault {
    /// A part is out of its range: the first such part.
    OutOfRange(Part),
    /// The payloads are those of no value of the kind.
    NoValue,
}

impl Fault for ValueFault {
    ghost line = { value_line };

    ghost place_listed = { Prim.search rules };

    fn refusal(&self) -> Refusal {
        match self {
            ValueFault::OutOfRange(part) => Refusal {
                number: 20,
                layer: Layer::Value,
                place: *part as u32,
            },
            ValueFault::NoValue => Refusal {
                number: 12,
                layer: Layer::Value,
                place: 0,
            },
        }
    }
}

impl fmt::Display for ValueFault {
    ghost output = { λ f. Some (refusal_text (told (value_line f))) };

    fn fmt<W: fmt::Write>(&self, f: &mut fmt::Formatter<W>) -> fmt::Result {
        write!(f, "{}", self.refusal())
    }
}
