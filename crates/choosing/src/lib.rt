//! What a rule chooses when some copies are away, by the numbers of the copies.
#![tactic(auto)]

ghost use Rattle.std.specs.Prelude.{◌≡◌, ℕ, ◌≤◌, length, take, IfOk, None, Some, MatchResult};
ghost use Rattle.quorum.specs.Choosing.{Fitting};
ghost use Rattle.choosing.specs.Numbers.{Choice, Numbered, named, no_choice_text, no_copy, reach_without};
ghost use Rattle.choosing.specs.declared.NoChoice.TheVariants.{NoCopy};

use families::Quorum;
use quorum::fault::RuleFault;
use quorum::rule::{Chosen, Rule};
use std::alloc::{AllocError, Global};
use std::fmt;

/// Why no copies are chosen.
#[derive(Clone, Copy, PartialEq, Eq, Debug)]
pub enum NoChoice {
    /// The rule has no copy of this number.
    NoCopy(u32),
    /// The rule refuses.
    Refused(RuleFault),
}

impl fmt::Display for NoChoice {
    ghost output = { λ x. Some (no_choice_text x) };

    fn fmt<W: fmt::Write>(&self, f: &mut fmt::Formatter<W>) -> fmt::Result {
        match *self {
            NoChoice::NoCopy(copy) => write!(f, "no such copy {copy}"),
            NoChoice::Refused(fault) => write!(f, "{fault}"),
        }
    }
}

/// The reach marks of `n` copies with these away, and the rest of the array; refused where one of these is no copy.
fn reach_without(n: u32, away: &[u32]) -> Result<[u8; 64], NoChoice>
    requires { n ≤ 64 }
    ensures { MatchResult result (λ marks. (no_copy n away.now ≡ None) × (take n marks ≡ reach_without n away.now)) (λ f. (c : ℕ) × (no_copy n away.now ≡ Some c) × (f ≡ NoCopy c)) }
{
    let mut reach = [1; 64];
    for &copy in away {
        if copy == 0 || copy > n {
            return Err(NoChoice::NoCopy(copy));
        }
        reach[copy as usize - 1] = 0;
    }
    Ok(reach)
}

/// The numbers of the copies whose marks are not 0.
fn numbers_of(heap: Global, choice: &[u8]) -> Result<Vec<u32>, AllocError>
    requires { length choice.now ≤ 64 }
    ensures { IfOk result (λ v. v.items ≡ named (length choice.now) choice.now) }
{
    (1..65)
        .zip(choice)
        .filter(|(_, mark)| **mark != 0)
        .map(|(copy, _)| copy)
        .collect(heap)
}

/// The copies chosen from this reach, by number. The choice marks are there to be filled.
fn choose_numbers<R: Rule>(
    heap: Global,
    rule: &R,
    quorum: Quorum,
    reach: &[u8],
    choice: &mut [u8],
) -> Result<Result<Vec<u32>, NoChoice>, AllocError>
    requires { Fitting (R.Rule.meaning rule.now) reach.now choice.old }
    ensures { IfOk result (λ x. Numbered (R.Rule.meaning rule.now) quorum reach.now x) }
{
    match rule.choose(quorum, reach, choice) {
        Ok(Chosen) => Ok(Ok(numbers_of(heap, choice)?)),
        Err(fault) => Ok(Err(NoChoice::Refused(fault))),
    }
}

/// The copies that the rule chooses, by number, when these copies are away and all others in reach. Want of memory is
/// no answer of the rule: none is taken but for the numbers of the copies chosen.
pub fn choose_without<R: Rule>(
    heap: Global,
    rule: &R,
    quorum: Quorum,
    away: &[u32],
) -> Result<Result<Vec<u32>, NoChoice>, AllocError>
    ensures { IfOk result (λ x. Choice (R.Rule.meaning rule.now) quorum away.now x) }
{
    let n = rule.copies();
    match reach_without(n, away) {
        Ok(reach) => {
            let len = n as usize;
            let mut choice = [0; 64];
            choose_numbers(heap, rule, quorum, &reach[..len], &mut choice[..len])
        }
        Err(none) => Ok(Err(none)),
    }
}
