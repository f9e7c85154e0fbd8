//! A component of the field, in range by its type.
ghost use Rattle.numbers.specs.Written.{tenths_text};
ghost use Rattle.std.specs.Prelude.{◌≡◌, true, false, ℤ, pos, Some, MatchOption, ◌≢◌};
ghost use Rattle.parts.specs.Parts.{component_in, component_payload};

use numbers::tenths::Tenths;
use std::fmt;

/// A component of the field in tenths of a nanotesla, from −9,999,999 to 9,999,999. Contracts see it with its range, as
/// they see `Bounded`.
#[derive(Clone, Copy, PartialEq, Eq, Debug)]
pub struct Component {
    tenths: Tenths,
    ghost in_range: { component_in tenths.0 ≡ true },
}

impl fmt::Display for Component {
    ghost output = { λ c. Some (tenths_text c.tenths.0) };

    fn fmt<W: fmt::Write>(&self, f: &mut fmt::Formatter<W>) -> fmt::Result {
        write!(f, "{}", self.tenths)
    }
}

impl Component {
    /// The component with these tenths; `None` where they are out of range, as `Bounded::new` answers.
    pub fn new(tenths: Tenths) -> Option<Component>
        ensures { MatchOption result (component_in tenths.0 ≡ false) (λ c. c.tenths ≡ tenths) }
    {
        if (-9_999_999..=9_999_999).contains(&tenths.0) {
            Some(Component { tenths })
        } else {
            None
        }
    }

    /// The component in tenths of a nanotesla.
    pub fn tenths(self) -> Tenths
        ensures { result ≡ self.tenths }
    {
        self.tenths
    }

    /// No field at all.
    pub fn zero() -> Component
        ensures { result.tenths.0 ≡ pos 0 }
    {
        Component { tenths: Tenths(0) }
    }

    /// The payload that the component is coded as. A coding has a name of its own, since the number is not the component.
    pub fn payload(self) -> u32
        ensures { result ≡ component_payload self.tenths.0 }
    {
        (self.tenths.0 + 10_000_000) as u32
    }

    /// The component with this payload; `None` where no component has it.
    pub fn of_payload(payload: u32) -> Option<Component>
        ensures { MatchOption result ((z : ℤ) → component_in z ≡ true → payload ≢ component_payload z) (λ c. payload ≡ component_payload c.tenths.0) }
    {
        let raised = i32::try_from(payload).ok()?;
        Component::new(Tenths(raised.checked_sub(10_000_000)?))
    }
}
