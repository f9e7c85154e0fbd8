//! A bank that keeps its records as an image: words of 32 bits.
#![tactic(auto)]

ghost use Rattle.std.specs.Prelude.{◌≡◌, ◌+◌, ◌<◌, ◌≤◌, ◌^◌, true, not, length, IfOk, vec_len, ◌==◌};
ghost use Rattle.banks.specs.Calls.{sizes_of};
ghost use Rattle.banks.specs.Limits.{allowed_sizes};
ghost use Rattle.banks.specs.Making.{NewBank, new_bank};
ghost use Rattle.imagebank.specs.Whole.{OfWords, is_none, record_words, whole};
ghost use Rattle.words.specs.Format.{five, head_word, image, imaged, record_word, station_word, told_record, word};
ghost use Rattle.words.specs.Spots.{kind_number};
ghost use Rattle.imagebank.specs.Wholes.{whole_lawful};

use banks::bank::Bank;
use banks::fault::BankFault;
use banks::record::{Kept, Record, Sizes};
use std::alloc::{AllocError, Global};
use values::value::{Payloads, Value};
use words::check;
use words::layout::{Layout, RECORD_WORDS};
use words::word::{Kind, PAYLOADS};

/// A bank that keeps its records as an image.
#[derive(Drop)]
pub struct ImageBank {
    words: Vec<u32>,
    // A bank whose making was refused stands, without words, and tells why.
    refusal: Option<BankFault>,
    ghost sound: { whole words.items ≡ true },
    ghost told: { is_none refusal ≡ not (vec_len words == 0) },
}

/// The word of this kind with this payload.
fn word(kind: Kind, payload: u32) -> u32
    requires { payload < 2 ^ 28 }
    ensures { result ≡ word (kind_number kind) payload }
{
    kind as u32 * PAYLOADS + payload
}

/// The first word of an image.
fn first_word(sizes: &Sizes) -> u32
    requires { allowed_sizes sizes.now ≡ true }
    ensures { result ≡ head_word sizes.now.kind sizes.now.stations sizes.now.entries }
{
    word(
        Kind::First,
        (sizes.kind * 256 + sizes.stations) * 256 + sizes.entries,
    )
}

/// The word of a station.
fn station_word(station: u32, reach: bool) -> u32
    requires { station ≤ 64 }
    ensures { result ≡ station_word station reach }
{
    word(Kind::Station, station * 2 + u32::from(reach))
}

/// The five words of a record.
fn record_words(entry: u32, kept: &Kept) -> [u32; RECORD_WORDS]
    requires { entry ≤ 48 }
    ensures { result ≡ record_words entry kept.now.plain }
{
    let Record { number, payloads } = kept.get();
    [
        word(Kind::Number, entry * 65_536 + number),
        word(Kind::FirstPayload, payloads.first),
        word(Kind::SecondPayload, payloads.second),
        word(Kind::ThirdPayload, payloads.third),
        word(Kind::FourthPayload, payloads.fourth),
    ]
}

/// The record whose five words begin at this place.
fn told_record(words: &[u32], place: usize) -> Record
    requires { place + 4 < length words.now }
    ensures { result ≡ told_record words.now place }
{
    Record {
        number: words[place] % 65_536,
        payloads: Payloads {
            first: words[place + 1] % PAYLOADS,
            second: words[place + 2] % PAYLOADS,
            third: words[place + 3] % PAYLOADS,
            fourth: words[place + 4] % PAYLOADS,
        },
    }
}

/// Writes the five words of a record, from this place on.
fn put_record(words: &mut [u32], place: usize, entry: u32, kept: &Kept)
    requires { (place + 4 < length words.old) × (entry ≤ 48) }
    ensures { words.new ≡ five words.old place (record_word entry kept.now.plain) }
{
    let [number, first, second, third, fourth] = record_words(entry, kept);
    // Word by word: for so few, `copy_from_slice` makes a store take more than twice as long.
    words[place] = number;
    words[place + 1] = first;
    words[place + 2] = second;
    words[place + 3] = third;
    words[place + 4] = fourth;
}

/// The image of a new bank, every record of which is this one.
fn new_words(heap: Global, sizes: &Sizes, first: &Kept) -> Result<Vec<u32>, AllocError>
    requires { (allowed_sizes sizes.now ≡ true) × (first.now.plain.number ≡ 1) }
    ensures { IfOk result (λ v. v.items ≡ image (new_bank sizes.now.kind first.now.plain.payloads sizes.now.stations sizes.now.entries)) }
{
    let mut words = Vec::new(heap);
    words.push(first_word(sizes))?;
    for station in 1..=sizes.stations {
        words.push(station_word(station, true))?;
        for entry in 1..=sizes.entries {
            words.extend_from_slice(&record_words(entry, first))?;
        }
    }
    Ok(words)
}

impl ImageBank {
    ghost use Rattle.imagebank.specs.Meant.{meant};

    /// A new bank for values of this kind: all stations in reach, and every record at number 1 with the blank. Where the
    /// kind or the sizes are out of their limits, an empty bank that tells so.
    pub fn new<V: Value + Drop>(
        heap: Global,
        stations: u32,
        entries: u32,
    ) -> Result<ImageBank, AllocError>
        ensures { IfOk result (λ b. NewBank V.Value.KIND (V.Value.coded V.Value.empty) stations entries (meant b) b.refusal) }
    {
        match Sizes::of::<V>(stations, entries) {
            Ok(sizes) => Ok(ImageBank {
                words: new_words(heap, &sizes, &Kept::first(&V::blank()))?,
                refusal: None,
            }),
            Err(fault) => Ok(ImageBank {
                words: Vec::new(heap),
                refusal: Some(fault),
            }),
        }
    }

    /// The bank that the words tell of. Where they are no image, an empty bank that tells why.
    // `From` would not do: words that are no image are lost.
    pub fn from_words(mut words: Vec<u32>) -> ImageBank
        ensures { OfWords words.items (meant result) result.refusal }
    {
        let refusal = check(words.as_slice()).err();
        if refusal.is_some() {
            words.clear();
        }
        ImageBank { words, refusal }
    }

    /// The words: the image of the bank.
    pub fn words(&self) -> &[u32]
        ensures { result.now ≡ image (meant self.now) }
    {
        self.words.as_slice()
    }

    /// Why the bank is empty, if its making was refused.
    pub fn refusal(&self) -> Option<BankFault>
        ensures { result ≡ self.now.refusal }
    {
        self.refusal
    }

    /// Where the words stand.
    fn layout(&self) -> Layout
        ensures { result.sizes ≡ sizes_of (meant self.now) }
    {
        Layout::told(self.words.as_slice())
    }
}

impl Bank for ImageBank {
    ghost use Rattle.imagebank.specs.Meant.{meant};

    ghost meaning = { meant };

    ghost lawful = { λ b. whole_lawful b.words.items b.sound };

    fn sizes(&self) -> Sizes {
        self.layout().sizes
    }

    fn in_reach(&self, station: u32) -> Result<bool, BankFault> {
        let layout = self.layout();
        layout.sizes.check_station(station)?;
        Ok(self.words[layout.place_of_station(station)] % 2 == 1)
    }

    fn fetch(&self, station: u32, entry: u32) -> Result<Record, BankFault> {
        let layout = self.layout();
        layout
            .sizes
            .check_call(station, entry, self.in_reach(station))?;
        let place = layout.place_of_record(station, entry);
        Ok(told_record(self.words.as_slice(), place))
    }

    fn store(&mut self, station: u32, entry: u32, kept: Record) -> Result<(), BankFault> {
        let layout = self.layout();
        layout
            .sizes
            .check_call(station, entry, self.in_reach(station))?;
        let kept = Kept::new(kept).ok_or(BankFault::OutOfLimits(entry))?;
        let place = layout.place_of_record(station, entry);
        put_record(self.words.as_mut_slice(), place, entry, &kept);
        Ok(())
    }

    fn set_reach(&mut self, station: u32, reach: bool) -> Result<(), BankFault> {
        let layout = self.layout();
        layout.sizes.check_station(station)?;
        let place = layout.place_of_station(station);
        self.words[place] = station_word(station, reach);
        Ok(())
    }
}
