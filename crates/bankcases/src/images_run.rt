//! Images: the words of a new bank, images that are damaged, and banks made of words.
use banks::bank::Bank;
use banks::fault::BankFault;
use banks::record::{Record, Sizes};
use imagebank::ImageBank;
use std::alloc::Global;
use std::process::Abort;
use std::test::Fail;
use values::baseline::Baseline;
use values::notice::Notice;
use values::value::Payloads;
use words::check;

/// The first words of these, as many as `count`, with the bits of one of them flipped.
fn flipped(
    heap: Global,
    words: &[u32],
    count: usize,
    place: usize,
    bits: u32,
) -> Result<Vec<u32>, Fail> {
    let mut copy = words[..count.min(words.len())].to_vec(heap)?;
    if let Some(word) = copy.get_mut(place) {
        *word ^= bits;
    }
    Ok(copy)
}

/// A bank of notices with two stations and two entries, one record of which was stored.
fn small(rt: &impl Abort, heap: Global) -> Result<ImageBank, Fail> {
    let mut bank = ImageBank::new::<Notice>(heap, 2, 2)?;
    assert_eq!(rt; bank.store(2, 1, stored()), Ok(()));
    assert_eq!(rt; bank.set_reach(1, false), Ok(()));
    Ok(bank)
}

fn stored() -> Record {
    Record {
        number: 65_535,
        payloads: Payloads {
            first: 268_435_455,
            second: 0,
            third: 1,
            fourth: 2,
        },
    }
}

#[test]
fn the_words_of_a_new_bank(rt: HostRuntime) -> Result<(), Fail> {
    let bank = ImageBank::new::<Baseline>(rt.alloc(), 1, 1)?;
    assert_eq!(rt; bank.refusal(), None);
    assert_eq!(rt;
        bank.words(),
        [
            0x10010101, 0x20000003, 0x30010001, 0x40989680, 0x50989680, 0x60989680, 0x70000000,
        ]
        .as_slice()
    );
    Ok(())
}

#[test]
fn a_damaged_image_is_refused_where_it_is_damaged(rt: HostRuntime) -> Result<(), Fail> {
    let bank = small(&rt, rt.alloc())?;
    assert_eq!(rt; check(bank.words()), Ok(()));
    for place in 0..23 {
        let words = flipped(rt.alloc(), bank.words(), 23, place, 0x80000000)?;
        assert_eq!(rt; check(words.as_slice()), Err(BankFault::Word(place as u32)));
    }
    Ok(())
}

#[test]
fn a_word_short_and_a_word_long(rt: HostRuntime) -> Result<(), Fail> {
    let bank = small(&rt, rt.alloc())?;
    for count in 1..23 {
        let words = flipped(rt.alloc(), bank.words(), count, 23, 0)?;
        assert_eq!(rt; check(words.as_slice()), Err(BankFault::Length(23)));
    }
    let mut words = flipped(rt.alloc(), bank.words(), 23, 23, 0)?;
    assert_eq!(rt; check(words.as_slice()), Ok(()));
    words.push(0)?;
    assert_eq!(rt; check(words.as_slice()), Err(BankFault::Length(23)));
    assert_eq!(rt; check(&[]), Err(BankFault::Length(1)));
    Ok(())
}

#[test]
fn first_words_at_their_limits(rt: HostRuntime) {
    for (word, fault) in [
        (0x10010101, BankFault::Length(7)),
        (0x1FFF4030, BankFault::Length(15_425)),
        (0x10000101, BankFault::Word(0)),
        (0x10010001, BankFault::Word(0)),
        (0x10014101, BankFault::Word(0)),
        (0x10010100, BankFault::Word(0)),
        (0x10010131, BankFault::Word(0)),
        (0x20010101, BankFault::Word(0)),
    ] {
        assert_eq!(rt; check(&[word]), Err(fault));
    }
}

/// Another station, the number 0, another entry, another kind of word.
#[test]
fn words_out_of_turn(rt: HostRuntime) -> Result<(), Fail> {
    let bank = small(&rt, rt.alloc())?;
    for (place, bits) in [
        (1, 0x00000006),
        (2, 0x00000001),
        (2, 0x00030000),
        (7, 0x00030000),
        (12, 0x00000006),
        (13, 0x0000FFFF),
        (14, 0x70000000),
        (22, 0x10000000),
    ] {
        let words = flipped(rt.alloc(), bank.words(), 23, place, bits)?;
        assert_eq!(rt; check(words.as_slice()), Err(BankFault::Word(place as u32)));
    }
    Ok(())
}

#[test]
fn an_image_gives_back_what_was_stored(rt: HostRuntime) -> Result<(), Fail> {
    let bank = small(&rt, rt.alloc())?;
    let again = ImageBank::from_words(flipped(rt.alloc(), bank.words(), 23, 23, 0)?);
    assert_eq!(rt; again.refusal(), None);
    assert_eq!(rt; again.words(), bank.words());
    assert_eq!(rt; again.sizes(), bank.sizes());
    assert_eq!(rt; again.fetch(2, 1), Ok(stored()));
    assert_eq!(rt; again.fetch(2, 2), bank.fetch(2, 2));
    assert_eq!(rt; again.fetch(1, 1), Err(BankFault::Away(1)));
    assert_eq!(rt; again.in_reach(1), Ok(false));
    Ok(())
}

#[test]
fn words_that_are_refused_leave_an_empty_bank(rt: HostRuntime) -> Result<(), Fail> {
    let mut words = Vec::new(rt.alloc());
    words.push(0x10010101)?;
    let bank = ImageBank::from_words(words);
    assert_eq!(rt; bank.refusal(), Some(BankFault::Length(7)));
    assert_eq!(rt; bank.words().len(), 0);
    assert_eq!(rt;
        bank.sizes(),
        Sizes {
            kind: 0,
            stations: 0,
            entries: 0,
        }
    );
    assert_eq!(rt; bank.fetch(1, 1), Err(BankFault::NoStation(1)));
    let none = ImageBank::new::<Notice>(rt.alloc(), 65, 1)?;
    assert_eq!(rt; none.refusal(), Some(BankFault::Sizes));
    assert_eq!(rt; none.words().len(), 0);
    Ok(())
}
