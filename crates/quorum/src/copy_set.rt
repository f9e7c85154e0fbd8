//! Sets of copies, of which there are at most 64.
ghost use Rattle.std.specs.Prelude.{◌≡◌, ℕ, ◌<◌, false, ◌||◌, [], ◌∷◌, ◌==◌, IsTrue, cond};
ghost use Rattle.families.specs.Copies.{among};
ghost use Rattle.quorum.specs.Sets.{Same, members};

use std::array;

/// A set of copies. An array holds it, so a choosing call takes no memory and cannot fail for want of it.
#[derive(Clone, Copy)]
pub(crate) struct CopySet {
    marks: [bool; 65],
}

impl CopySet {
    pub(crate) fn empty() -> CopySet
        ensures { (k : ℕ) → members result k ≡ false }
    {
        CopySet { marks: [false; 65] }
    }

    /// A set has no copy beyond 64.
    pub(crate) fn has(&self, copy: usize) -> bool
        ensures member { result ≡ members self.now copy }
        ensures marked { IsTrue result → copy < 65 }
    {
        copy < 65 && self.marks[copy]
    }

    /// The mark of a copy: 1 if the set has it. No test stands in it, so that marks are written many at a time.
    pub(crate) fn mark(&self, copy: usize) -> u8
        requires { copy < 65 }
        ensures { result ≡ cond (members self.now copy) 1 0 }
    {
        u8::from(self.marks[copy])
    }

    pub(crate) fn only(copy: usize) -> CopySet
        requires { copy < 65 }
        ensures { Same (members result) (among (copy ∷ [])) }
    {
        let mut set = CopySet::empty();
        set.insert(copy);
        set
    }

    pub(crate) fn insert(&mut self, copy: usize)
        requires { copy < 65 }
        ensures { (k : ℕ) → members self.new k ≡ (copy == k || members self.old k) }
    {
        self.marks[copy] = true;
    }

    pub(crate) fn add_all(&mut self, other: &CopySet)
        ensures { (k : ℕ) → members self.new k ≡ (members self.old k || members other.now k) }
    {
        self.marks = array::from_fn(|copy| self.marks[copy] || other.marks[copy]);
    }
}
