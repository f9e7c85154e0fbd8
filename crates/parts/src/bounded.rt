//! Numbers that are in a range by their type.
ghost use Rattle.std.specs.Prelude.{◌≡◌, ◌≤◌, Some, decimal, MatchOption};

use std::fmt;

/// A number from `LOW` to `HIGH`. Contracts see it with its range, and not as a plain number: laws on all values of a kind
/// need the range.
#[derive(Clone, Copy, PartialEq, Eq, Debug)]
pub struct Bounded<const LOW: u32, const HIGH: u32> {
    number: u32,
    ghost low: { LOW ≤ number },
    ghost high: { number ≤ HIGH },
}

impl<const LOW: u32, const HIGH: u32> fmt::Display for Bounded<LOW, HIGH> {
    ghost output = { λ b. Some (decimal b.number) };

    fn fmt<W: fmt::Write>(&self, f: &mut fmt::Formatter<W>) -> fmt::Result {
        write!(f, "{}", self.number)
    }
}

impl<const LOW: u32, const HIGH: u32> Bounded<LOW, HIGH> {
    /// The number as one in the range; `None` where it is outside, as in `NonZeroU32::new`: which part of a value is wrong
    /// the caller knows.
    pub fn new(number: u32) -> Option<Bounded<LOW, HIGH>>
        ensures { MatchOption result (LOW ≤ number → number ≤ HIGH → ⊥) (λ b. b.number ≡ number) }
    {
        if (LOW..=HIGH).contains(&number) {
            Some(Bounded { number })
        } else {
            None
        }
    }

    /// The number itself.
    pub fn get(self) -> u32
        ensures { result ≡ self.entry.number }
    {
        self.number
    }
}

impl<const HIGH: u32> Bounded<0, HIGH> {
    pub fn zero() -> Bounded<0, HIGH>
        ensures { result.number ≡ 0 }
    {
        Bounded { number: 0 }
    }
}

/// A day count.
pub type Day = Bounded<0, 99_999>;

/// The serial number of a notice.
pub type Serial = Bounded<1, 999_999>;

/// Why a notice was withdrawn.
pub type Reason = Bounded<1, 9>;
