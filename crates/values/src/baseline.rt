//! Baselines: three components of the field and a day.
ghost use Rattle.values.specs.Baselines.{baseline_out, blank_baseline, coded_baseline, HasParts};
ghost use Rattle.std.specs.Prelude.{Some};
ghost use Rattle.values.specs.Making.{Made};
ghost use Rattle.values.specs.Texts.{baseline_text};
ghost use Rattle.values.specs.Codings.{baseline_apart, gives_back_lem};
ghost use Rattle.std.proofs.Common.{rules};

use super::fault::{Part, ValueFault};
use super::value::{Payloads, Value};
use numbers::tenths::Tenths;
use parts::bounded::Day;
use parts::component::Component;
use std::fmt;

/// A baseline: the components X, Y and Z in tenths of a nanotesla, and the day count.
#[derive(Clone, Copy, PartialEq, Eq, Debug)]
pub struct Baseline {
    pub x: Component,
    pub y: Component,
    pub z: Component,
    pub day: Day,
}

impl fmt::Display for Baseline {
    ghost output = { λ b. Some (baseline_text b) };

    fn fmt<W: fmt::Write>(&self, f: &mut fmt::Formatter<W>) -> fmt::Result {
        let Baseline { x, y, z, day } = *self;
        write!(f, "X {x} Y {y} Z {z} nT day {day}")
    }
}

impl Baseline {
    /// The baseline with these parts; refused for the first part that is out of range.
    pub fn new(x: Tenths, y: Tenths, z: Tenths, day: u32) -> Result<Baseline, ValueFault>
        ensures { Made (baseline_out x.0 y.0 z.0 day) (HasParts x y z day) result }
    {
        Ok(Baseline {
            x: Component::new(x).ok_or(ValueFault::OutOfRange(Part::First))?,
            y: Component::new(y).ok_or(ValueFault::OutOfRange(Part::Second))?,
            z: Component::new(z).ok_or(ValueFault::OutOfRange(Part::Third))?,
            day: Day::new(day).ok_or(ValueFault::OutOfRange(Part::Fourth))?,
        })
    }
}

impl Value for Baseline {
    const KIND: u32 = 1;

    ghost KIND = { 1 };

    ghost empty = { blank_baseline };

    ghost coded = { coded_baseline };

    ghost in_limits = { Prim.search rules };

    ghost gives_back = { gives_back_lem coded_baseline baseline_apart };

    ghost own_payloads = { Prim.search rules };

    fn blank() -> Baseline {
        Baseline {
            x: Component::zero(),
            y: Component::zero(),
            z: Component::zero(),
            day: Day::zero(),
        }
    }

    fn code(&self) -> Payloads {
        Payloads {
            first: self.x.payload(),
            second: self.y.payload(),
            third: self.z.payload(),
            fourth: self.day.get(),
        }
    }

    fn uncode(payloads: Payloads) -> Result<Baseline, ValueFault> {
        Ok(Baseline {
            x: Component::of_payload(payloads.first).ok_or(ValueFault::NoValue)?,
            y: Component::of_payload(payloads.second).ok_or(ValueFault::NoValue)?,
            z: Component::of_payload(payloads.third).ok_or(ValueFault::NoValue)?,
            day: Day::new(payloads.fourth).ok_or(ValueFault::NoValue)?,
        })
    }
}
