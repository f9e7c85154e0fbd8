//! Where the words of an image stand.
ghost use Rattle.std.specs.Prelude.{◌≡◌, ◌+◌, ◌-◌, ◌*◌, ◌^◌, ◌<◌, length, MatchOption};
ghost use Rattle.banks.specs.Calls.{sizes_of};
ghost use Rattle.words.specs.Format.{block, imaged, record_place, size, station_place};
ghost use Rattle.words.specs.Spots.{AllFit, IsFirstWrong, fits, spot_at};

use super::told_sizes;
use super::word::{Kind, PAYLOADS};
use banks::record::Sizes;

/// How many words a record has.
pub const RECORD_WORDS: usize = 5;

/// What stands at a place of an image after the first.
#[derive(Clone, Copy, PartialEq, Eq, Debug)]
enum Spot {
    /// The word of this station.
    Station(u32),
    /// The number of a record for this entry.
    Number(u32),
    /// A payload of a record, in a word of the kind of this number. It is a number, as places are of 32 bits here, since with
    /// the kind itself and places of 64 bits the test of an image took a third longer.
    Payload(u32),
}

impl Spot {
    /// Whether the word can stand here.
    fn fits(self, word: u32) -> bool
        ensures { result ≡ fits self word }
    {
        let kind = word / PAYLOADS;
        let payload = word % PAYLOADS;
        match self {
            Spot::Station(station) => kind == Kind::Station as u32 && payload / 2 == station,
            Spot::Number(entry) => {
                kind == Kind::Number as u32 && payload / 65_536 == entry && payload % 65_536 != 0
            }
            Spot::Payload(due) => kind == due,
        }
    }
}

/// The sizes that the first word of an image tells, and so where its words stand.
#[derive(Clone, Copy, PartialEq, Eq, Debug)]
pub struct Layout {
    pub sizes: Sizes,
    ghost short: { sizes.entries < 256 },
}

impl Layout {
    /// The layout that words tell; without any words it has no stations.
    pub fn told(words: &[u32]) -> Layout
        ensures { result.sizes ≡ sizes_of (imaged words.now) }
    {
        let sizes = words
            .first()
            .map(|&first| told_sizes(first))
            .unwrap_or_default();
        Layout { sizes }
    }

    /// How many words a station has.
    fn block(&self) -> usize
        ensures { result ≡ block self.now.sizes.entries }
    {
        1 + self.sizes.entries as usize * RECORD_WORDS
    }

    /// How many words an image has.
    pub(super) fn size(&self) -> usize
        ensures { result ≡ size self.now.sizes.stations self.now.sizes.entries }
    {
        1 + self.sizes.stations as usize * self.block()
    }

    /// Where the words of a station begin.
    pub fn place_of_station(&self, station: u32) -> usize
        ensures { result ≡ station_place self.now.sizes.entries station }
    {
        1 + (station as usize).saturating_sub(1) * self.block()
    }

    /// Where the words of a record begin.
    pub fn place_of_record(&self, station: u32, entry: u32) -> usize
        ensures { result ≡ record_place self.now.sizes.entries station entry }
    {
        self.place_of_station(station) + 1 + (entry as usize).saturating_sub(1) * RECORD_WORDS
    }

    /// What stands at this place, the first left out.
    fn spot(&self, place: usize) -> Spot
        requires { (0 < place) × (place < 2 ^ 32) }
        ensures { result ≡ spot_at self.now.sizes.entries (place - 1) }
    {
        let block = self.block() as u32;
        let before = place as u32 - 1;
        let offset = before % block;
        if offset == 0 {
            return Spot::Station(before / block + 1);
        }
        match (offset - 1) % RECORD_WORDS as u32 {
            0 => Spot::Number((offset - 1) / RECORD_WORDS as u32 + 1),
            field => Spot::Payload(Kind::Number as u32 + field),
        }
    }

    /// The first place, that of the first word left out, at which the word cannot stand.
    pub(super) fn first_wrong(&self, words: &[u32]) -> Option<usize>
        requires { length words.now < 2 ^ 32 }
        ensures { MatchOption result (AllFit self.now.sizes.entries words.now (length words.now)) (IsFirstWrong self.now.sizes.entries words.now) }
    {
        (1..words.len()).find(
            |&place|
                requires { (0 < place) × ((place < length words.now) × (place < 2 ^ 32)) }
            { !self.spot(place).fits(words[place]) },
        )
    }
}
