//! How a refusal is told: by its number, by the layer that refuses, and by the place where the cause was met.
//!
//! Every layer has a fault type of its own, an enum with one variant for each cause. What they have in common is here.
#![tactic(auto)]

ghost use Rattle.faults.specs.Line.{Line, layer_name, refusal_text, told};
ghost use Rattle.std.specs.Prelude.{◌≡◌, true, Some};

use std::fmt;

/// The layer that a refusal comes from.
#[derive(Clone, Copy, PartialEq, Eq, Debug)]
pub enum Layer {
    Tree,
    Rule,
    Bank,
    Value,
    Register,
}

impl fmt::Display for Layer {
    ghost output = { λ l. Some (layer_name l) };

    fn fmt<W: fmt::Write>(&self, f: &mut fmt::Formatter<W>) -> fmt::Result {
        match self {
            Layer::Tree => f.write_str("tree"),
            Layer::Rule => f.write_str("rule"),
            Layer::Bank => f.write_str("bank"),
            Layer::Value => f.write_str("value"),
            Layer::Register => f.write_str("register"),
        }
    }
}

/// A refusal as it is told to the caller: its number is the one that the list of refusals gives the cause.
#[derive(Clone, Copy, PartialEq, Eq, Debug)]
pub struct Refusal {
    pub number: u32,
    pub layer: Layer,
    pub place: u32,
}

impl fmt::Display for Refusal {
    ghost output = { λ r. Some (refusal_text r) };

    fn fmt<W: fmt::Write>(&self, f: &mut fmt::Formatter<W>) -> fmt::Result {
        write!(
            f,
            "refused {}, {}, place {}",
            self.number, self.layer, self.place
        )
    }
}

/// What a fault of any layer tells. Its line in the list of refusals is the ghost member `line`.
///
/// Each type of faults shows its refusal by a `Display` of its own: one for every `Fault` would be an impl of a foreign
/// trait for foreign types.
pub trait Fault {
    ghost line: { Self → Line };

    /// The number, the layer and the place of the refusal.
    fn refusal(&self) -> Refusal
        ensures { result ≡ told (line self.now) };

    fn number(&self) -> u32
        ensures { result ≡ (line self.now).number }
    {
        self.refusal().number
    }

    fn layer(&self) -> Layer
        ensures { result ≡ (line self.now).layer }
    {
        self.refusal().layer
    }

    fn place(&self) -> u32
        ensures { result ≡ (line self.now).place }
    {
        self.refusal().place
    }

    /// A fault tells a place that its line allows.
    ghost place_listed: { (f : Self) → (line f).places (line f).place ≡ true };
}
