//! A rule that is settled while the program runs: one of the three.
#![tactic(auto)]

ghost use Rattle.anyrule.specs.Making.{Makes, form_line};
ghost use Rattle.anyrule.specs.Meanings.{any_meaning};
ghost use Rattle.anyrule.specs.declared.FormFault.TheVariants as fault;
ghost use Rattle.faults.specs.Line.{refusal_text, told};
ghost use Rattle.std.specs.Prelude.{◌≡◌, Some};
ghost use Rattle.std.proofs.Common.{rules};
ghost use Rattle.anyrule.specs.Lawfulness.{keeps};

use families::Quorum;
use faults::{Fault, Refusal};
use quorum::fault::{RuleFault, TreeFault};
use quorum::level_rule::LevelRule;
use quorum::rule::{Chosen, Rule};
use quorum::tree::Tree;
use quorum::tree_rule::TreeRule;
use quorum::votes_rule::VotesRule;
use std::fmt;

/// One of the three rules, under the names by which they are asked for.
#[derive(Clone, Copy, PartialEq, Eq, Debug)]
pub enum AnyRule {
    Tree(TreeRule),
    Levels(LevelRule),
    Votes(VotesRule),
}

/// A rule as it is asked for.
#[derive(Drop)]
pub enum RuleForm {
    Tree { degree: u32, height: u32 },
    Levels { degree: u32, height: u32 },
    Votes { threshold: u32, votes: Vec<u32> },
}

/// Why there is no rule of a form.
#[derive(Clone, Copy, PartialEq, Eq, Debug)]
pub enum FormFault {
    Tree(TreeFault),
    Rule(RuleFault),
}

impl Fault for FormFault {
    ghost line = { form_line };

    ghost place_listed = { Prim.search rules };

    fn refusal(&self) -> Refusal {
        match self {
            FormFault::Tree(fault) => fault.refusal(),
            FormFault::Rule(fault) => fault.refusal(),
        }
    }
}

impl fmt::Display for FormFault {
    ghost output = { λ f. Some (refusal_text (told (form_line f))) };

    fn fmt<W: fmt::Write>(&self, f: &mut fmt::Formatter<W>) -> fmt::Result {
        let refusal = self.refusal();
        write!(f, "{refusal}")
    }
}

impl From<TreeFault> for FormFault {
    ghost from_gives = { λ f r. r ≡ fault.Tree f };

    fn from(fault: TreeFault) -> FormFault {
        FormFault::Tree(fault)
    }
}

impl From<RuleFault> for FormFault {
    ghost from_gives = { λ f r. r ≡ fault.Rule f };

    fn from(fault: RuleFault) -> FormFault {
        FormFault::Rule(fault)
    }
}

impl AnyRule {
    /// The rule that is asked for, or why there is none. A form is no value that becomes a rule, but says which to build.
    pub fn new(form: &RuleForm) -> Result<AnyRule, FormFault>
        ensures { Makes form.now result }
    {
        match form {
            RuleForm::Tree { degree, height } => {
                let tree = Tree::new(*degree, *height)?;
                Ok(AnyRule::Tree(TreeRule::new(tree)))
            }
            RuleForm::Levels { degree, height } => {
                let tree = Tree::new(*degree, *height)?;
                Ok(AnyRule::Levels(LevelRule::new(tree)?))
            }
            RuleForm::Votes { threshold, votes } => {
                Ok(AnyRule::Votes(VotesRule::new(votes.as_slice(), *threshold)?))
            }
        }
    }
}

impl Rule for AnyRule {
    ghost meaning = { any_meaning };

    ghost lawful = { λ r. keeps r };

    fn copies(&self) -> u32 {
        match self {
            AnyRule::Tree(rule) => rule.copies(),
            AnyRule::Levels(rule) => rule.copies(),
            AnyRule::Votes(rule) => rule.copies(),
        }
    }

    fn choose(&self, quorum: Quorum, reach: &[u8], choice: &mut [u8]) -> Result<Chosen, RuleFault> {
        match self {
            AnyRule::Tree(rule) => rule.choose(quorum, reach, choice),
            AnyRule::Levels(rule) => rule.choose(quorum, reach, choice),
            AnyRule::Votes(rule) => rule.choose(quorum, reach, choice),
        }
    }
}
