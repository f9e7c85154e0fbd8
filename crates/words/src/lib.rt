//! The image of a bank as words of 32 bits, and the test of an image.
#![tactic(auto)]

ghost use Rattle.std.specs.Prelude.{◌≡◌, Ok};
ghost use Rattle.banks.specs.Calls.{answered};
ghost use Rattle.words.specs.Checking.{check_fault};
ghost use Rattle.words.specs.Format.{image, imaged, told_entries, told_kind, told_stations};

pub mod layout;
pub mod word;

use banks::fault::BankFault;
use banks::record::Sizes;
use layout::Layout;
use word::{Kind, PAYLOADS};

/// The sizes that the first word of an image tells.
pub fn told_sizes(word: u32) -> Sizes
    ensures { (result.kind ≡ told_kind word) × ((result.stations ≡ told_stations word) × (result.entries ≡ told_entries word)) }
{
    let payload = word % PAYLOADS;
    Sizes {
        kind: payload / 65_536,
        stations: payload / 256 % 256,
        entries: payload % 256,
    }
}

/// Tests whether the words are an image: refused are no words, then a first word that is wrong, then a wrong length, then
/// the first of the others that is wrong. Words that are accepted are the image of what they tell, and so the only ones
/// that tell it.
pub fn check(words: &[u32]) -> Result<(), BankFault>
    ensures told { result ≡ answered (check_fault words.now) tt }
    ensures image { result ≡ Ok tt → words.now ≡ image (imaged words.now) }
{
    let Some(first) = words.first() else {
        return Err(BankFault::Length(1));
    };
    let layout = Layout::told(words);
    if first / PAYLOADS != Kind::First as u32 || !layout.sizes.allowed() {
        return Err(BankFault::Word(0));
    }
    let size = layout.size();
    if words.len() != size {
        return Err(BankFault::Length(size as u32));
    }
    match layout.first_wrong(words) {
        Some(place) => Err(BankFault::Word(place as u32)),
        None => Ok(()),
    }
}
