//! What every kind of value gives: its kind number, its blank, and its coding as four payloads.
ghost use Rattle.std.specs.Prelude.{◌≡◌, ℕ, Some, Ok, Result};
ghost use Rattle.values.specs.Coding.{InLimits, Uncodes, payloads_text};
ghost use Rattle.values.specs.declared.fault.ValueFault.{ValueFault};
ghost use Rattle.values.specs.declared.value.Payloads.{Payloads};

use super::fault::ValueFault;
use std::fmt;

/// Four numbers, as a record keeps them. Those of a value are at most 268,435,455.
#[derive(Clone, Copy, PartialEq, Eq, Debug)]
pub struct Payloads {
    pub first: u32,
    pub second: u32,
    pub third: u32,
    pub fourth: u32,
}

impl fmt::Display for Payloads {
    ghost output = { λ p. Some (payloads_text p) };

    fn fmt<W: fmt::Write>(&self, f: &mut fmt::Formatter<W>) -> fmt::Result {
        write!(
            f,
            "{} {} {} {}",
            self.first, self.second, self.third, self.fourth
        )
    }
}

/// A kind of value. `KIND` is its number, `empty` the blank, and `coded` gives the payloads of a value.
pub trait Value: Sized {
    /// The number of this kind of value.
    const KIND: u32;

    ghost KIND: { ℕ };

    ghost empty: { Self };

    ghost coded: { Self → Payloads };

    /// The value that stands where nothing has been written yet.
    fn blank() -> Self
        ensures { result ≡ empty };

    /// The payloads of this value.
    fn code(&self) -> Payloads
        ensures { result ≡ coded self.now };

    /// The value with these payloads; refused where no value has them.
    fn uncode(payloads: Payloads) -> Result<Self, ValueFault>
        ensures { Uncodes coded payloads result };

    /// The payloads of a value are within the limits of a payload.
    ghost in_limits: { (v : Self) → InLimits (coded v) };

    /// Uncoding gives the value that was coded.
    ghost gives_back: { (v : Self) (r : Result Self ValueFault) → Uncodes coded (coded v) r → r ≡ Ok v };

    /// Only a value's own payloads uncode to it.
    ghost own_payloads: { (p : Payloads) (v : Self) → Uncodes coded p (Ok v) → p ≡ coded v };
}
