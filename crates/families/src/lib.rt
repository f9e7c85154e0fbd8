//! Families of quorums: what a quorum rule means, and that three such meanings keep the laws.
//!
//! The definitions are in `specs/`. The functions here state what is proved of them, for every degree, every height
//! and every list of votes.
#![tactic(auto)]

ghost use Rattle.std.specs.Prelude.{◌≡◌, ◌≢◌, ℕ, ◌≤◌, List, MatchResult, Some};
ghost use Rattle.families.specs.Meaning.{Lawful, quorum_name};
ghost use Rattle.families.specs.Levels.{levels_rule};
ghost use Rattle.families.specs.Trees.{copies_of, tree_rule};
ghost use Rattle.families.specs.Votes.{Allowed, votes_rule};

use std::fmt;
use std::str::FromStr;

/// The two sorts of quorum.
#[derive(Clone, Copy, PartialEq, Eq, Debug)]
pub enum Quorum {
    Read,
    Write,
}

impl fmt::Display for Quorum {
    ghost output = { λ q. Some (quorum_name q) };

    fn fmt<W: fmt::Write>(&self, f: &mut fmt::Formatter<W>) -> fmt::Result {
        match self {
            Quorum::Read => f.write_str("read"),
            Quorum::Write => f.write_str("write"),
        }
    }
}

/// The text names no sort of quorum.
#[derive(Clone, Copy, PartialEq, Eq, Debug)]
pub struct UnknownQuorum;

impl FromStr for Quorum {
    ghost use Rattle.families.specs.declared.Quorum.{Quorum};

    type Err = UnknownQuorum;

    ghost from_str_gives = { λ text r. MatchResult r (λ q. text ≡ quorum_name q) (λ _. (q : Quorum) → text ≢ quorum_name q) };

    fn from_str(text: &str) -> Result<Quorum, UnknownQuorum> {
        match text {
            "read" => Ok(Quorum::Read),
            "write" => Ok(Quorum::Write),
            _ => Err(UnknownQuorum),
        }
    }
}

/// How many meanings are proved to keep the laws: the tree's, the levels' and the votes'.
pub fn lawful_rules() -> u32
    ensures tree { (d h : ℕ) → copies_of d h ≤ 64 → Lawful (tree_rule d h) }
    ensures levels { (d h : ℕ) → copies_of d h ≤ 64 → Lawful (levels_rule d h) }
    ensures votes { (votes : List ℕ) (w : ℕ) → Allowed votes w → Lawful (votes_rule votes w) }
    ensures count { result ≡ 3 }
{
    3
}
