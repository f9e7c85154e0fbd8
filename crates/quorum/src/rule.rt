//! What every quorum rule gives.
ghost use Rattle.families.specs.Meaning.{Lawful, Meaning};
ghost use Rattle.families.specs.declared.Quorum.TheVariants.{Read, Write};
ghost use Rattle.quorum.specs.Choosing.{Chooses};
ghost use Rattle.std.specs.Prelude.{◌≡◌};

use super::fault::RuleFault;
use families::Quorum;

/// That a choice was made.
#[derive(Clone, Copy, PartialEq, Eq, Debug)]
pub struct Chosen;

/// A quorum rule. Its meaning says how many copies it has, which sets of copies hold a read or a write quorum, and
/// what it chooses from which reach; every rule's meaning keeps the laws.
pub trait Rule {
    ghost meaning: { Self → Meaning };

    /// How many copies the rule has.
    fn copies(&self) -> u32
        ensures { result ≡ (meaning self.now).n };

    /// Fills the choice marks with 1 for each copy chosen for this quorum, and 0 for the rest. The reach marks are not 0
    /// for the copies in reach. Both lists are the caller's, one byte a copy. Refused where a list has another length, or
    /// the reach holds no such quorum.
    fn choose(&self, quorum: Quorum, reach: &[u8], choice: &mut [u8]) -> Result<Chosen, RuleFault>
        ensures { Chooses (meaning self.now) quorum reach.now choice.old choice.new result };

    /// The choice for reading.
    fn choose_read(&self, reach: &[u8], choice: &mut [u8]) -> Result<Chosen, RuleFault>
        ensures { Chooses (meaning self.now) Read reach.now choice.old choice.new result }
    {
        self.choose(Quorum::Read, reach, choice)
    }

    /// The choice for writing.
    fn choose_write(&self, reach: &[u8], choice: &mut [u8]) -> Result<Chosen, RuleFault>
        ensures { Chooses (meaning self.now) Write reach.now choice.old choice.new result }
    {
        self.choose(Quorum::Write, reach, choice)
    }

    ghost lawful: { (r : Self) → Lawful (meaning r) };
}
