//! The tree rule.
ghost use Rattle.std.specs.Prelude.{◌≡◌, suc, ◌-◌, ◌/◌, ◌<◌, ◌≤◌};
ghost use Rattle.families.specs.Trees.{children, choice, gather, near_first, tree_rule};
ghost use Rattle.quorum.specs.Rows.{Fits, copies_in};
ghost use Rattle.quorum.specs.Sets.{Is, members};
ghost use Rattle.quorum.specs.RuleLaws.{tree_keeps};

use super::copy_set::CopySet;
use super::fault::RuleFault;
use super::marks::{check_lengths, give, marked_set};
use super::rule::{Chosen, Rule};
use super::tree::Tree;
use families::Quorum;
use std::ops::Range;

/// A choice to be made for a copy of a tree in which copies have `2 * half + 1` children. `height` levels stand below
/// the copy, and all copies of them have marks.
#[derive(Clone, Copy)]
struct Choice<'a> {
    quorum: Quorum,
    reach: &'a CopySet,
    half: usize,
    height: usize,
    copy: usize,
    ghost small: { half ≤ 4 },
    ghost fits: { Fits half height copy },
}

impl<'a> Choice<'a> {
    /// The copy's children.
    fn children(&self) -> Range<usize>
        requires { 0 < self.now.height }
        ensures { copies_in result ≡ children self.now.half self.now.copy }
    {
        let degree = 2 * self.half + 1;
        let first = degree * (self.copy - 1) + 2;
        first..first + degree
    }

    /// The choice of the copy, made of its children's choices.
    #[cycle(choose_for_copy_choose_in_row)]
    fn choose_for_copy(&self) -> Option<CopySet>
        ensures { Is result (choice self.now.quorum self.now.half self.now.height (members self.now.reach.now) self.now.copy) }
    {
        let here = self.reach.has(self.copy);
        if self.height == 0 {
            return if here {
                Some(CopySet::only(self.copy))
            } else {
                None
            };
        }
        match self.quorum {
            Quorum::Read => {
                if here {
                    Some(CopySet::only(self.copy))
                } else {
                    self.choose_in_row()
                }
            }
            Quorum::Write => {
                if here {
                    let mut chosen = self.choose_in_row()?;
                    chosen.insert(self.copy);
                    Some(chosen)
                } else {
                    None
                }
            }
        }
    }

    /// The choices of the first children that have one, those in reach first, until `half + 1` stand.
    #[cycle(choose_for_copy_choose_in_row)]
    fn choose_in_row(&self) -> Option<CopySet>
        requires { 0 < self.now.height }
        ensures { Is result (gather (choice self.now.quorum self.now.half (self.now.height - 1) (members self.now.reach.now)) (suc self.now.half) (near_first (members self.now.reach.now) (children self.now.half self.now.copy))) }
    {
        let mut chosen = CopySet::empty();
        let mut wanted = self.half + 1;
        for near in [true, false] {
            for child in self.children() {
                if wanted > 0 && self.reach.has(child) == near {
                    let below = Choice {
                        quorum: self.quorum,
                        reach: self.reach,
                        half: self.half,
                        height: self.height - 1,
                        copy: child,
                    };
                    if let Some(below) = below.choose_for_copy() {
                        chosen.add_all(&below);
                        wanted -= 1;
                    }
                }
            }
        }
        if wanted == 0 { Some(chosen) } else { None }
    }
}

/// The rule of a tree. A leaf holds either quorum if it is in the set. A larger subtree holds a write quorum if its
/// root is in the set and more than half of its children's subtrees hold one, a read quorum if its root is in the set
/// or more than half of them hold one.
#[derive(Clone, Copy, PartialEq, Eq, Debug)]
pub struct TreeRule {
    tree: Tree,
}

impl TreeRule {
    /// The rule of this tree.
    pub fn new(tree: Tree) -> TreeRule
        ensures { result.tree ≡ tree }
    {
        TreeRule { tree }
    }

    /// The choice of the root.
    fn choose_from_root(&self, quorum: Quorum, reach: &CopySet) -> Option<CopySet>
        ensures { Is result (choice quorum (self.now.tree.degree / 2) self.now.tree.height (members reach.now) 1) }
    {
        let root = Choice {
            quorum,
            reach,
            half: (self.tree.degree() / 2) as usize,
            height: self.tree.height() as usize,
            copy: 1,
        };
        root.choose_for_copy()
    }
}

impl Rule for TreeRule {
    ghost meaning = { λ r. tree_rule (r.tree.degree / 2) r.tree.height };

    ghost lawful = { λ r. tree_keeps r.tree };

    fn copies(&self) -> u32 {
        self.tree.copies()
    }

    fn choose(&self, quorum: Quorum, reach: &[u8], choice: &mut [u8]) -> Result<Chosen, RuleFault> {
        check_lengths(self.tree.copies(), reach, choice)?;
        let set = self.choose_from_root(quorum, &marked_set(reach));
        give(quorum, set, choice)
    }
}
