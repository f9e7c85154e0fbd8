//! Marks: sets of copies in the caller's lists.
//!
//! A rule chooses in three steps: it checks the lengths, chooses a set in its own way, and gives it. The steps stand in
//! each rule, since a trait for the middle one would need a meaning and a law of its own.
ghost use Rattle.std.specs.Prelude.{◌≡◌, ◌<◌, length, MatchResult};
ghost use Rattle.families.specs.Copies.{marked, marks};
ghost use Rattle.quorum.specs.Choosing.{Gives};
ghost use Rattle.quorum.specs.Sets.{Same, members};
ghost use Rattle.quorum.specs.declared.fault.RuleFault.TheVariants.{Length};

use super::copy_set::CopySet;
use super::fault::RuleFault;
use super::rule::Chosen;
use families::Quorum;

/// The copies whose marks are not 0.
pub(crate) fn marked_set(reach: &[u8]) -> CopySet
    requires { length reach.now < 65 }
    ensures { Same (members result) (marked (length reach.now) reach.now) }
{
    let mut set = CopySet::empty();
    // The mark at place i is that of copy i + 1.
    for (i, mark) in reach.iter().enumerate() {
        if *mark != 0 {
            set.insert(i + 1);
        }
    }
    set
}

/// Writes 1 for each copy of the set, and 0 for the rest.
pub(crate) fn fill_marks(set: &CopySet, choice: &mut [u8])
    requires { length choice.old < 65 }
    ensures { choice.new ≡ marks (length choice.old) (members set.now) }
{
    for (i, mark) in choice.iter_mut().enumerate() {
        *mark = set.mark(i + 1);
    }
}

/// Refuses lists that have not one mark for each of the `n` copies.
pub(crate) fn check_lengths(n: u32, reach: &[u8], choice: &[u8]) -> Result<(), RuleFault>
    ensures { MatchResult result (λ _. (length reach.now ≡ n) × (length choice.now ≡ n)) (λ f. (f ≡ Length n) × ((length reach.now ≡ n) × (length choice.now ≡ n) → ⊥)) }
{
    let len = n as usize;
    if reach.len() == len && choice.len() == len {
        Ok(())
    } else {
        Err(RuleFault::Length(n))
    }
}

/// Hands the set chosen to the caller, or refuses where there is none.
pub(crate) fn give(
    quorum: Quorum,
    set: Option<CopySet>,
    choice: &mut [u8],
) -> Result<Chosen, RuleFault>
    requires { length choice.old < 65 }
    ensures { Gives quorum set choice.old choice.new result }
{
    match set {
        Some(set) => {
            fill_marks(&set, choice);
            Ok(Chosen)
        }
        None => Err(match quorum {
            Quorum::Read => RuleFault::NoReadQuorum,
            Quorum::Write => RuleFault::NoWriteQuorum,
        }),
    }
}
