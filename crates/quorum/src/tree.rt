//! Trees: the degrees and heights that are allowed.
ghost use Rattle.std.specs.Prelude.{◌≡◌, ◌/◌, ◌≤◌, true, false, MatchResult};
ghost use Rattle.families.specs.Levels.{level};
ghost use Rattle.families.specs.Trees.{copies_of};
ghost use Rattle.quorum.specs.Rows.{copies_in};
ghost use Rattle.quorum.specs.Shapes.{allowed_tree};
ghost use Rattle.quorum.specs.declared.fault.TreeFault.TheVariants.{NotAllowed};

use super::fault::TreeFault;
use std::ops::Range;

/// A full tree of an odd degree: every copy above the lowest level has `degree` children, and `height` levels stand
/// below the root.
#[derive(Clone, Copy, PartialEq, Eq, Debug)]
pub struct Tree {
    degree: u32,
    height: u32,
    ghost allowed: { allowed_tree degree height ≡ true },
}

impl Tree {
    /// The tree of this degree and height; refused unless it is allowed.
    pub fn new(degree: u32, height: u32) -> Result<Tree, TreeFault>
        ensures { MatchResult result (λ t. (t.degree ≡ degree) × (t.height ≡ height)) (λ f. (f ≡ NotAllowed) × (allowed_tree degree height ≡ false)) }
    {
        let tallest = match degree {
            3 => 3,
            5 | 7 => 2,
            9 => 1,
            _ => return Err(TreeFault::NotAllowed),
        };
        if height <= tallest {
            Ok(Tree { degree, height })
        } else {
            Err(TreeFault::NotAllowed)
        }
    }

    /// How many children each copy has, but for those on the lowest level.
    pub fn degree(&self) -> u32
        ensures { result ≡ self.now.degree }
    {
        self.degree
    }

    /// How many levels stand below the root.
    pub fn height(&self) -> u32
        ensures { result ≡ self.now.height }
    {
        self.height
    }

    /// How many copies the tree has.
    pub fn copies(&self) -> u32
        ensures { (result ≡ copies_of (self.now.degree / 2) self.now.height) × (result ≤ 57) }
    {
        let mut last = 1;
        for _level in 0..self.height {
            last = last * self.degree + 1;
        }
        last
    }

    /// The copies of a level; levels are counted from 0 at the root.
    pub(crate) fn level(&self, number: u32) -> Range<usize>
        requires { number ≤ self.now.height }
        ensures { copies_in result ≡ level (self.now.degree / 2) number }
    {
        let degree = self.degree as usize;
        let mut first = 1;
        let mut size = 1;
        for _level in 0..number {
            first = degree * (first - 1) + 2;
            size *= degree;
        }
        first..first + size
    }
}
