//! The votes rule.
ghost use Rattle.std.specs.Prelude.{◌≡◌, ◌≤◌, length, MatchResult};
ghost use Rattle.families.specs.Votes.{Allowed, threshold as threshold_for, total, votes_choice, votes_rule};
ghost use Rattle.quorum.specs.Sets.{Is, members};
ghost use Rattle.quorum.specs.VoteLists.{votes_in};
ghost use Rattle.quorum.specs.Voting.{NoVotesRule};

use super::copy_set::CopySet;
use super::fault::RuleFault;
use super::marks::{check_lengths, give, marked_set};
use super::rule::{Chosen, Rule};
use super::votes::Votes;
use families::Quorum;

/// All votes together.
fn total(votes: &[u8]) -> u32
    requires { length votes.now ≤ 64 }
    ensures { (result ≡ total votes.now) × (result ≤ 16320) }
{
    votes.iter().map(|vote| u32::from(*vote)).sum()
}

/// Copies in reach, taken in order until their votes reach the threshold; none that has no votes.
fn choose_by_votes(votes: &[u8], threshold: u32, reach: &CopySet) -> Option<CopySet>
    ensures { Is result (votes_choice threshold 1 votes.now (members reach.now)) }
{
    let mut chosen = CopySet::empty();
    let mut wanted = threshold;
    // The votes are added in the order of the copies: those at place i are those of copy i + 1.
    for (i, vote) in votes.iter().enumerate() {
        if wanted > 0 && *vote != 0 && reach.has(i + 1) {
            chosen.insert(i + 1);
            wanted = wanted.saturating_sub(u32::from(*vote));
        }
    }
    if wanted == 0 { Some(chosen) } else { None }
}

/// The rule of votes. Each copy has 0 to 255 votes, and a set holds a quorum if its votes reach the threshold.
#[derive(Clone, Copy, PartialEq, Eq, Debug)]
pub struct VotesRule {
    votes: Votes,
    threshold: u32,
    ghost allowed: { Allowed (votes_in votes) threshold },
}

impl VotesRule {
    /// The rule of these votes, copy by copy, and this write threshold. Refused for another number of copies than 1 to
    /// 64, for votes over 255, and for a threshold that is more than all votes or not more than half of them.
    pub fn new(votes: &[u32], threshold: u32) -> Result<VotesRule, RuleFault>
        ensures { MatchResult result (λ x. (votes_in x.votes ≡ votes.now) × (x.threshold ≡ threshold)) (NoVotesRule votes.now threshold) }
    {
        let votes = Votes::new(votes)?;
        let total = total(votes.as_slice());
        if threshold <= total && 2 * threshold > total {
            Ok(VotesRule { votes, threshold })
        } else {
            Err(RuleFault::VotesNotAllowed)
        }
    }

    /// The threshold for reading, or for writing.
    fn threshold_for(&self, quorum: Quorum) -> u32
        ensures { result ≡ threshold_for quorum (votes_in self.now.votes) self.now.threshold }
    {
        match quorum {
            Quorum::Read => total(self.votes.as_slice()) + 1 - self.threshold,
            Quorum::Write => self.threshold,
        }
    }
}

impl Rule for VotesRule {
    ghost use Rattle.quorum.specs.RuleLaws.{votes_keep};

    ghost meaning = { λ r. votes_rule (votes_in r.votes) r.threshold };

    ghost lawful = { λ r. votes_keep r };

    fn copies(&self) -> u32 {
        self.votes.count()
    }

    fn choose(&self, quorum: Quorum, reach: &[u8], choice: &mut [u8]) -> Result<Chosen, RuleFault> {
        check_lengths(self.votes.count(), reach, choice)?;
        let threshold = self.threshold_for(quorum);
        let set = choose_by_votes(self.votes.as_slice(), threshold, &marked_set(reach));
        give(quorum, set, choice)
    }
}
