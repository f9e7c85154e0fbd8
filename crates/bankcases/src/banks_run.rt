//! Banks: limits, records that stay, the order of refusals, and layers over one another.
use banks::bank::Bank;
use banks::fault::BankFault;
use banks::record::{Record, Sizes};
use closing::Closing;
use faults::{Fault, Layer, Refusal};
use imagebank::ImageBank;
use pile::{AnyBank, OneOf, Pile};
use placement::Placement;
use std::alloc::Global;
use std::process::Abort;
use std::test::Fail;
use tablebank::TableBank;
use values::baseline::Baseline;
use values::notice::Notice;
use values::value::{Payloads, Value};

const NONE: Sizes = Sizes {
    kind: 0,
    stations: 0,
    entries: 0,
};

fn record(number: u32, first: u32, second: u32, third: u32, fourth: u32) -> Record {
    Record {
        number,
        payloads: Payloads {
            first,
            second,
            third,
            fourth,
        },
    }
}

/// A record of which each station and entry has another.
fn own(station: u32, entry: u32) -> Record {
    record(station, entry, station, entry, 7)
}

/// The bank of three stations and two entries, each with a record of its own.
fn filled<B: Bank + Drop>(mut bank: B) -> Result<B, Fail> {
    for station in 1..4 {
        for entry in 1..3 {
            bank.store(station, entry, own(station, entry))?;
        }
    }
    Ok(bank)
}

/// A bank of notices with three stations and two entries, each with a record of its own.
fn three(heap: Global) -> Result<TableBank, Fail> {
    filled(TableBank::new::<Notice>(heap, 3, 2)?)
}

/// The station has the records that this station of `three` had at first.
fn check_records<B: Bank>(rt: &impl Abort, bank: &B, station: u32, had: u32) -> Result<(), Fail> {
    assert_eq!(rt; bank.in_reach(station), Ok(true));
    for entry in 1..3 {
        assert_eq!(rt; bank.fetch(station, entry), Ok(own(had, entry)));
    }
    Ok(())
}

/// The station is away, and says so by its number in this bank.
fn check_away<B: Bank>(rt: &impl Abort, bank: &mut B, station: u32) -> Result<(), Fail> {
    assert_eq!(rt; bank.in_reach(station), Ok(false));
    assert_eq!(rt; bank.fetch(station, 1), Err(BankFault::Away(station)));
    assert_eq!(rt;
        bank.store(station, 1, own(1, 1)),
        Err(BankFault::Away(station))
    );
    Ok(())
}

/// The station has those records, is away when it is set so, and has them when it comes back.
fn check_comes_back<B: Bank>(
    rt: &impl Abort,
    bank: &mut B,
    station: u32,
    had: u32,
) -> Result<(), Fail> {
    check_records(rt, bank, station, had)?;
    bank.set_reach(station, false)?;
    check_away(rt, bank, station)?;
    bank.set_reach(station, true)?;
    check_records(rt, bank, station, had)
}

/// The station is shut: away, and it stays so.
fn check_shut<B: Bank>(rt: &impl Abort, bank: &mut B, station: u32) -> Result<(), Fail> {
    check_away(rt, bank, station)?;
    assert_eq!(rt;
        bank.set_reach(station, true),
        Err(BankFault::Shut(station))
    );
    check_away(rt, bank, station)
}

/// The bank is empty.
fn check_empty<B: Bank>(rt: &impl Abort, bank: &mut B) -> Result<(), Fail> {
    assert_eq!(rt; bank.sizes(), NONE);
    assert_eq!(rt; bank.fetch(1, 1), Err(BankFault::NoStation(1)));
    assert_eq!(rt; bank.set_reach(1, true), Err(BankFault::NoStation(1)));
    Ok(())
}

/// A new bank of these sizes has all stations in reach, and every record is this one.
fn check_new<V: Value + Drop>(
    rt: &impl Abort,
    heap: Global,
    sizes: Sizes,
    first: Record,
) -> Result<(), Fail> {
    let bank = TableBank::new::<V>(heap, sizes.stations, sizes.entries)?;
    assert_eq!(rt; bank.refusal(), None);
    assert_eq!(rt; bank.sizes(), sizes);
    for station in 0..sizes.stations {
        assert_eq!(rt; bank.in_reach(station + 1), Ok(true));
        for entry in 0..sizes.entries {
            assert_eq!(rt; bank.fetch(station + 1, entry + 1), Ok(first));
        }
    }
    Ok(())
}

#[test]
fn new_banks_have_blanks(rt: HostRuntime) -> Result<(), Fail> {
    let zero = 10_000_000;
    for (stations, entries) in [(1, 1), (64, 1), (1, 48), (64, 48)] {
        let sizes = Sizes {
            kind: 1,
            stations,
            entries,
        };
        check_new::<Baseline>(&rt, rt.alloc(), sizes, record(1, zero, zero, zero, 0))?;
        let sizes = Sizes {
            kind: 2,
            stations,
            entries,
        };
        check_new::<Notice>(&rt, rt.alloc(), sizes, record(1, 0, 0, 0, 0))?;
    }
    Ok(())
}

#[test]
fn sizes_past_their_ends_are_refused(rt: HostRuntime) -> Result<(), Fail> {
    for (stations, entries) in [(0, 1), (1, 0), (65, 1), (1, 49), (0, 0), (65, 48), (64, 49)] {
        let mut bank = TableBank::new::<Notice>(rt.alloc(), stations, entries)?;
        assert_eq!(rt; bank.refusal(), Some(BankFault::Sizes));
        check_empty(&rt, &mut bank)?;
    }
    Ok(())
}

#[test]
fn records_have_their_ends(rt: HostRuntime) -> Result<(), Fail> {
    let most = 268_435_455;
    let mut bank = TableBank::new::<Baseline>(rt.alloc(), 64, 48)?;
    for kept in [
        record(1, 0, 0, 0, 0),
        record(65_535, most, most, most, most),
    ] {
        bank.store(64, 48, kept)?;
        assert_eq!(rt; bank.fetch(64, 48), Ok(kept));
    }
    for kept in [
        record(0, 0, 0, 0, 0),
        record(65_536, 0, 0, 0, 0),
        record(1, most + 1, 0, 0, 0),
        record(1, 0, most + 1, 0, 0),
        record(1, 0, 0, most + 1, 0),
        record(1, 0, 0, 0, most + 1),
    ] {
        assert_eq!(rt; bank.store(64, 48, kept), Err(BankFault::OutOfLimits(48)));
        assert_eq!(rt;
            bank.fetch(64, 48),
            Ok(record(65_535, most, most, most, most))
        );
    }
    Ok(())
}

#[test]
fn records_stay(rt: HostRuntime) -> Result<(), Fail> {
    let mut bank = three(rt.alloc())?;
    bank.store(2, 1, own(9, 9))?;
    assert_eq!(rt; bank.fetch(2, 1), Ok(own(9, 9)));
    assert_eq!(rt; bank.fetch(2, 2), Ok(own(2, 2)));
    bank.set_reach(2, false)?;
    check_records(&rt, &bank, 1, 1)?;
    check_records(&rt, &bank, 3, 3)?;
    bank.set_reach(2, true)?;
    assert_eq!(rt; bank.fetch(2, 1), Ok(own(9, 9)));
    Ok(())
}

#[test]
fn stations_come_back(rt: HostRuntime) -> Result<(), Fail> {
    let mut bank = three(rt.alloc())?;
    for station in 1..4 {
        check_comes_back(&rt, &mut bank, station, station)?;
    }
    Ok(())
}

/// Of three stations and two entries, with this station away: the first cause that is met is told.
fn check_order<B: Bank>(rt: &impl Abort, bank: &mut B, away: u32) -> Result<(), Fail> {
    let bad = record(0, 0, 0, 0, 0);
    for (station, entry, fault) in [
        (0, 0, BankFault::NoStation(0)),
        (4, 3, BankFault::NoStation(4)),
        (away, 0, BankFault::NoEntry(0)),
        (away, 3, BankFault::NoEntry(3)),
        (away, 2, BankFault::Away(away)),
    ] {
        assert_eq!(rt; bank.fetch(station, entry), Err(fault));
        assert_eq!(rt; bank.store(station, entry, bad), Err(fault));
    }
    assert_eq!(rt; bank.store(1, 2, bad), Err(BankFault::OutOfLimits(2)));
    assert_eq!(rt; bank.in_reach(4), Err(BankFault::NoStation(4)));
    assert_eq!(rt; bank.set_reach(4, true), Err(BankFault::NoStation(4)));
    Ok(())
}

#[test]
fn refusals_come_in_order(rt: HostRuntime) -> Result<(), Fail> {
    let mut bank = three(rt.alloc())?;
    bank.set_reach(2, false)?;
    check_order(&rt, &mut bank, 2)?;
    let mut closed = Closing::new(bank, [0, 0, 1].to_vec(rt.alloc())?);
    check_order(&rt, &mut closed, 2)?;
    check_order(&rt, &mut closed, 3)?;
    assert_eq!(rt; closed.set_reach(3, false), Err(BankFault::Shut(3)));
    let mut placed = Placement::new(closed, [1, 3, 2].to_vec(rt.alloc())?);
    check_order(&rt, &mut placed, 2)?;
    check_order(&rt, &mut placed, 3)?;
    assert_eq!(rt; placed.set_reach(2, false), Err(BankFault::Shut(2)));
    Ok(())
}

#[test]
fn bank_faults_are_told(rt: HostRuntime) -> Result<(), Fail> {
    for (fault, number, place) in [
        (BankFault::NoEntry(49), 1, 49),
        (BankFault::NoStation(65), 2, 65),
        (BankFault::Away(64), 3, 64),
        (BankFault::OutOfLimits(48), 4, 48),
        (BankFault::Shut(64), 5, 64),
        (BankFault::Sizes, 13, 0),
        (BankFault::Length(64), 14, 64),
        (BankFault::Place(64), 17, 64),
        (BankFault::Word(9), 19, 9),
    ] {
        let told = Refusal {
            number,
            layer: Layer::Bank,
            place,
        };
        assert_eq!(rt; fault.refusal(), told);
    }
    assert_eq!(rt;
        BankFault::Away(64).to_string(rt.alloc())?.as_str(),
        "refused 3, bank, place 64"
    );
    Ok(())
}

/// A placement of three stations by this list tells this refusal, and is empty then.
fn check_placing(
    rt: &impl Abort,
    heap: Global,
    places: &[u32],
    fault: BankFault,
) -> Result<(), Fail> {
    let mut bank = Placement::new(three(heap)?, places.to_vec(heap)?);
    assert_eq!(rt; bank.refusal(), Some(fault));
    check_empty(rt, &mut bank)
}

#[test]
fn places_that_are_wrong_are_refused(rt: HostRuntime) -> Result<(), Fail> {
    check_placing(&rt, rt.alloc(), &[2, 1], BankFault::Length(3))?;
    check_placing(&rt, rt.alloc(), &[2, 3, 1, 1], BankFault::Length(3))?;
    for (places, copy) in [
        ([0, 2, 3], 1),
        ([1, 4, 4], 2),
        ([2, 2, 0], 2),
        ([3, 1, 3], 3),
    ] {
        check_placing(&rt, rt.alloc(), &places, BankFault::Place(copy))?;
    }
    Ok(())
}

/// The bank below with copies 1, 2 and 3 at stations 2, 3 and 1.
fn turned<B: Bank + Drop>(heap: Global, below: B) -> Result<Placement<B>, Fail> {
    Ok(Placement::new(below, [2, 3, 1].to_vec(heap)?))
}

/// The bank below with station 2 shut.
fn without_two<B: Bank + Drop>(heap: Global, below: B) -> Result<Closing<B>, Fail> {
    Ok(Closing::new(below, [0, 255, 0].to_vec(heap)?))
}

#[test]
fn copies_stand_at_their_places(rt: HostRuntime) -> Result<(), Fail> {
    let mut bank = turned(rt.alloc(), three(rt.alloc())?)?;
    assert_eq!(rt; bank.refusal(), None);
    for (copy, station) in [(1, 2), (2, 3), (3, 1)] {
        check_comes_back(&rt, &mut bank, copy, station)?;
    }
    bank.store(1, 2, own(9, 9))?;
    assert_eq!(rt; bank.fetch(1, 2), Ok(own(9, 9)));
    assert_eq!(rt; bank.fetch(1, 1), Ok(own(2, 1)));
    check_records(&rt, &bank, 2, 3)?;
    check_records(&rt, &bank, 3, 1)
}

#[test]
fn marks_shut_stations(rt: HostRuntime) -> Result<(), Fail> {
    let mut bank = without_two(rt.alloc(), three(rt.alloc())?)?;
    assert_eq!(rt; bank.refusal(), None);
    check_shut(&rt, &mut bank, 2)?;
    check_comes_back(&rt, &mut bank, 1, 1)?;
    check_comes_back(&rt, &mut bank, 3, 3)
}

#[test]
fn marks_of_another_length_are_refused(rt: HostRuntime) -> Result<(), Fail> {
    for marks in [[0; 2].to_vec(rt.alloc())?, [0; 4].to_vec(rt.alloc())?] {
        let mut bank = Closing::new(three(rt.alloc())?, marks);
        assert_eq!(rt; bank.refusal(), Some(BankFault::Length(3)));
        check_empty(&rt, &mut bank)?;
    }
    Ok(())
}

#[test]
fn nothing_stands_on_an_empty_bank(rt: HostRuntime) -> Result<(), Fail> {
    let heap = rt.alloc();
    let empty = TableBank::new::<Notice>(heap, 0, 2)?;
    let mut placed = Placement::new(empty, Vec::new(heap));
    assert_eq!(rt; placed.refusal(), Some(BankFault::Sizes));
    check_empty(&rt, &mut placed)?;
    let mut closed = Closing::new(placed, Vec::new(heap));
    assert_eq!(rt; closed.refusal(), Some(BankFault::Sizes));
    check_empty(&rt, &mut closed)
}

#[test]
fn pile_closed_at_the_top(rt: HostRuntime) -> Result<(), Fail> {
    let heap = rt.alloc();
    let mut bank = without_two(heap, turned(heap, turned(heap, three(heap)?)?)?)?;
    check_shut(&rt, &mut bank, 2)?;
    check_comes_back(&rt, &mut bank, 1, 3)?;
    check_comes_back(&rt, &mut bank, 3, 2)
}

#[test]
fn pile_closed_in_the_middle(rt: HostRuntime) -> Result<(), Fail> {
    let heap = rt.alloc();
    let mut bank = turned(heap, without_two(heap, turned(heap, three(heap)?)?)?)?;
    check_shut(&rt, &mut bank, 1)?;
    check_comes_back(&rt, &mut bank, 2, 1)?;
    check_comes_back(&rt, &mut bank, 3, 2)
}

/// A table bank or an image bank, as `three` is.
fn any(heap: Global, table: bool) -> Result<AnyBank, Fail> {
    Ok(if table {
        OneOf::First(three(heap)?)
    } else {
        OneOf::Second(filled(ImageBank::new::<Notice>(heap, 3, 2)?)?)
    })
}

/// The bank, turned or not, with station 2 shut or not.
fn pile(heap: Global, bank: AnyBank, turn: bool, shut: bool) -> Result<Pile, Fail> {
    let bank = if turn {
        OneOf::Second(turned(heap, bank)?)
    } else {
        OneOf::First(bank)
    };
    Ok(if shut {
        OneOf::Second(without_two(heap, bank)?)
    } else {
        OneOf::First(bank)
    })
}

#[test]
fn piles_are_settled_while_the_program_runs(rt: HostRuntime) -> Result<(), Fail> {
    let heap = rt.alloc();
    for table in [true, false] {
        for (turn, second, third) in [(false, 2, 3), (true, 3, 1)] {
            let mut open = pile(heap, any(heap, table)?, turn, false)?;
            check_comes_back(&rt, &mut open, 2, second)?;
            check_comes_back(&rt, &mut open, 3, third)?;
            let mut closed = pile(heap, any(heap, table)?, turn, true)?;
            check_shut(&rt, &mut closed, 2)?;
            check_comes_back(&rt, &mut closed, 3, third)?;
        }
    }
    Ok(())
}
