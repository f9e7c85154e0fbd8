//! What trees and rules refuse.
ghost use Rattle.faults.specs.Line.{refusal_text, told};
ghost use Rattle.quorum.specs.Faults.{rule_line, tree_line};
ghost use Rattle.std.specs.Prelude.{Some};
ghost use Rattle.std.proofs.Common.{rules};

use faults::{Fault, Layer, Refusal};
use std::fmt;

/// Why there is no tree.
#[derive(Clone, Copy, PartialEq, Eq, Debug)]
pub enum TreeFault {
    /// The degree and the height are not those of an allowed tree.
    NotAllowed,
}

impl Fault for TreeFault {
    ghost line = { tree_line };

    ghost place_listed = { Prim.search rules };

    fn refusal(&self) -> Refusal {
        match self {
            TreeFault::NotAllowed => Refusal {
                number: 15,
                layer: Layer::Tree,
                place: 0,
            },
        }
    }
}

impl fmt::Display for TreeFault {
    ghost output = { λ f. Some (refusal_text (told (tree_line f))) };

    fn fmt<W: fmt::Write>(&self, f: &mut fmt::Formatter<W>) -> fmt::Result {
        let told = self.refusal();
        write!(f, "{told}")
    }
}

/// Why a rule is not made, or makes no choice.
#[derive(Clone, Copy, PartialEq, Eq, Debug)]
pub enum RuleFault {
    /// The copies in reach hold no read quorum.
    NoReadQuorum,
    /// The copies in reach hold no write quorum.
    NoWriteQuorum,
    /// A list has another length than this one.
    Length(u32),
    /// The votes or their threshold are not allowed.
    VotesNotAllowed,
    /// This level of the tree has an even number of copies.
    EvenLevel(u32),
}

impl Fault for RuleFault {
    ghost line = { rule_line };

    ghost place_listed = { Prim.search rules };

    fn refusal(&self) -> Refusal {
        let (number, place) = match self {
            RuleFault::NoReadQuorum => (6, 0),
            RuleFault::NoWriteQuorum => (7, 0),
            RuleFault::Length(length) => (14, *length),
            RuleFault::VotesNotAllowed => (16, 0),
            RuleFault::EvenLevel(level) => (18, *level),
        };
        Refusal {
            number,
            layer: Layer::Rule,
            place,
        }
    }
}

impl fmt::Display for RuleFault {
    ghost output = { λ f. Some (refusal_text (told (rule_line f))) };

    fn fmt<W: fmt::Write>(&self, f: &mut fmt::Formatter<W>) -> fmt::Result {
        let refusal = self.refusal();
        write!(f, "{refusal}")
    }
}
