//! The levels rule.
ghost use Rattle.std.specs.Prelude.{◌≡◌, ◌/◌, ◌%◌, MatchResult};
ghost use Rattle.families.specs.Levels.{half_choice, level_choice, levels_rule};
ghost use Rattle.quorum.specs.Sets.{Is, Joins, Joined, members};
ghost use Rattle.quorum.specs.declared.fault.RuleFault.TheVariants.{EvenLevel};
ghost use Rattle.quorum.specs.Rows.{copies_in};
ghost use Rattle.quorum.specs.RuleLaws.{levels_keep};

use super::copy_set::CopySet;
use super::fault::RuleFault;
use super::marks::{check_lengths, give, marked_set};
use super::rule::{Chosen, Rule};
use super::tree::Tree;
use families::Quorum;
use std::ops::Range;

/// The lowest-numbered copies of a row in reach, as many as are more than half of the row.
fn choose_half(reach: &CopySet, row: Range<usize>) -> Option<CopySet>
    ensures { Is result (half_choice (members reach.now) (copies_in row)) }
{
    let mut chosen = CopySet::empty();
    let mut wanted = row.len() / 2 + 1;
    for copy in row {
        if wanted > 0 && reach.has(copy) {
            chosen.insert(copy);
            wanted -= 1;
        }
    }
    if wanted == 0 { Some(chosen) } else { None }
}

/// Both sets, where both are there.
fn both(one: Option<CopySet>, other: Option<CopySet>) -> Option<CopySet>
    ensures { Joins one other result }
{
    let mut all = one?;
    all.add_all(&other?);
    Some(all)
}

/// Of one choice and the next: for writing both, for reading the first that is there.
fn join(quorum: Quorum, one: Option<CopySet>, other: Option<CopySet>) -> Option<CopySet>
    ensures { Joined quorum one other result }
{
    match quorum {
        Quorum::Read => one.or(other),
        Quorum::Write => both(one, other),
    }
}

/// Refuses a level with an even number of copies: of such a level both a set and the rest may lack more than half.
fn check_odd(level: u32, size: usize) -> Result<(), RuleFault>
    ensures { MatchResult result (λ _. size % 2 ≡ 1) (λ f. (f ≡ EvenLevel level) × (size % 2 ≡ 0)) }
{
    if size % 2 == 1 {
        Ok(())
    } else {
        Err(RuleFault::EvenLevel(level))
    }
}

/// The rule of a tree's levels. A write quorum is more than half of the copies of every level, a read quorum more than
/// half of the copies of one level.
#[derive(Clone, Copy, PartialEq, Eq, Debug)]
pub struct LevelRule {
    tree: Tree,
}

impl LevelRule {
    /// The rule of this tree's levels; refused if a level is even, which no level of an allowed tree is.
    pub fn new(tree: Tree) -> Result<LevelRule, RuleFault>
        ensures { MatchResult result (λ x. x.tree ≡ tree) (λ _. ⊥) }
    {
        for level in 0..=tree.height() {
            check_odd(level, tree.level(level).len())?;
        }
        Ok(LevelRule { tree })
    }

    /// The choice from the root's level down to the last.
    fn choose_levels(&self, quorum: Quorum, reach: &CopySet) -> Option<CopySet>
        ensures { Is result (level_choice quorum (self.now.tree.degree / 2) self.now.tree.height (members reach.now)) }
    {
        let mut chosen = choose_half(reach, self.tree.level(0));
        for above in 0..self.tree.height() {
            chosen = join(
                quorum,
                chosen,
                choose_half(reach, self.tree.level(above + 1)),
            );
        }
        chosen
    }
}

impl Rule for LevelRule {
    ghost meaning = { λ r. levels_rule (r.tree.degree / 2) r.tree.height };

    ghost lawful = { λ r. levels_keep r.tree };

    fn copies(&self) -> u32 {
        self.tree.copies()
    }

    fn choose(&self, quorum: Quorum, reach: &[u8], choice: &mut [u8]) -> Result<Chosen, RuleFault> {
        check_lengths(self.tree.copies(), reach, choice)?;
        let set = self.choose_levels(quorum, &marked_set(reach));
        give(quorum, set, choice)
    }
}
