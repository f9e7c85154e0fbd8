//! The rule that a script sets up.
ghost use Rattle.anyrule.specs.Making.{Makes};
ghost use Rattle.rulescript.specs.Rules.{rule_in, rule_of};
ghost use Rattle.std.specs.Option.{option_copied};
ghost use Rattle.std.specs.Prelude.{◌≡◌};

use super::line::Setup;
use anyrule::{AnyRule, FormFault, RuleForm};
use script::line::Line;

/// The rule that a line asks for, if it does.
fn rule_in<C>(line: &Option<Line<Setup, C>>) -> Option<&RuleForm>
    ensures { option_copied result ≡ rule_in line.now }
{
    match line {
        Some(Line::Setup(Setup::Rule(form))) => Some(form),
        _ => None,
    }
}

/// The rule that the lines ask for first, else that of the tree of degree 3 and height 3.
pub fn rule_of<C>(lines: &[Option<Line<Setup, C>>]) -> Result<AnyRule, FormFault>
    ensures { Makes (rule_of lines.now) result }
{
    let usual = RuleForm::Tree {
        degree: 3,
        height: 3,
    };
    AnyRule::new(lines.iter().find_map(rule_in).unwrap_or(&usual))
}
