//! Lists of votes.
ghost use Rattle.std.specs.Prelude.{◌≡◌, ℕ, ◌≤◌, length, MatchResult};
ghost use Rattle.quorum.specs.Voting.{NoVotesRule};

use super::fault::RuleFault;

/// The votes of 1 to 64 copies, by number. They stand in an array beside their count, so that a rule of votes is copied
/// and takes no heap.
#[derive(Clone, Copy, PartialEq, Eq, Debug)]
pub(crate) struct Votes {
    bytes: [u8; 64],
    count: usize,
    ghost some: { 1 ≤ count },
    ghost few: { count ≤ 64 },
}

impl Votes {
    ghost use Rattle.quorum.specs.VoteLists.{votes_in};

    /// The votes handed over. Refused for another number of copies than 1 to 64, and where one is over 255.
    pub(crate) fn new(votes: &[u32]) -> Result<Votes, RuleFault>
        ensures { MatchResult result (λ v. votes_in v ≡ votes.now) (λ f. (w : ℕ) → NoVotesRule votes.now w f) }
    {
        let count = votes.len();
        if count == 0 {
            return Err(RuleFault::Length(1));
        }
        if count > 64 {
            return Err(RuleFault::Length(64));
        }
        // By place, since a proof knows nothing of what is written through `iter_mut().zip(..)`.
        let mut bytes = [0; 64];
        for (i, vote) in votes.iter().enumerate() {
            let Ok(byte) = u8::try_from(*vote) else {
                return Err(RuleFault::VotesNotAllowed);
            };
            bytes[i] = byte;
        }
        Ok(Votes { bytes, count })
    }

    pub(crate) fn as_slice(&self) -> &[u8]
        ensures votes { result.now ≡ votes_in self.now }
        ensures few { length result.now ≤ 64 }
    {
        &self.bytes[..self.count]
    }

    /// How many copies there are.
    pub(crate) fn count(&self) -> u32
        ensures { result ≡ length (votes_in self.now) }
    {
        self.count as u32
    }
}
