//! Values at the ends of their ranges, and payloads that are no value.
use faults::{Fault, Layer};
use numbers::tenths::Tenths;
use std::process::Abort;
use std::test::Fail;
use values::baseline::Baseline;
use values::fault::{Part, ValueFault};
use values::notice::Notice;
use values::value::{Payloads, Value};

fn payloads(first: u32, second: u32, third: u32, fourth: u32) -> Payloads {
    Payloads {
        first,
        second,
        third,
        fourth,
    }
}

fn baseline(x: i32, y: i32, z: i32, day: u32) -> Result<Baseline, ValueFault> {
    Baseline::new(Tenths(x), Tenths(y), Tenths(z), day)
}

/// The value has these payloads, and they give it back.
fn check_coding<V: Value + Copy + PartialEq + std::fmt::Debug + Drop>(
    rt: &impl Abort,
    value: V,
    coded: Payloads,
) -> Result<(), Fail> {
    assert_eq!(rt; value.code(), coded);
    assert!(rt; V::uncode(coded)? == value);
    Ok(())
}

#[test]
fn baselines_are_coded(rt: HostRuntime) -> Result<(), Fail> {
    check_coding(
        &rt,
        baseline(9_999_999, -9_999_999, 0, 99_999)?,
        payloads(19_999_999, 1, 10_000_000, 99_999),
    )?;
    check_coding(
        &rt,
        baseline(-9_999_999, 0, 9_999_999, 0)?,
        payloads(1, 10_000_000, 19_999_999, 0),
    )?;
    check_coding(
        &rt,
        baseline(0, 9_999_999, -9_999_999, 1)?,
        payloads(10_000_000, 19_999_999, 1, 1),
    )?;
    check_coding(
        &rt,
        baseline(201_234, -3102, 430_010, 20_410)?,
        payloads(10_201_234, 9_996_898, 10_430_010, 20_410),
    )?;
    check_coding(
        &rt,
        Baseline::blank(),
        payloads(10_000_000, 10_000_000, 10_000_000, 0),
    )?;
    assert_eq!(rt; Baseline::blank(), baseline(0, 0, 0, 0)?);
    Ok(())
}

#[test]
fn baselines_out_of_range_are_refused(rt: HostRuntime) {
    for (x, y, z, day, part) in [
        (10_000_000, 0, 0, 0, Part::First),
        (-10_000_000, 10_000_000, 0, 100_000, Part::First),
        (0, 10_000_000, 10_000_000, 0, Part::Second),
        (0, -10_000_000, 0, 0, Part::Second),
        (0, 0, 10_000_000, 100_000, Part::Third),
        (0, 0, -10_000_000, 0, Part::Third),
        (0, 0, 0, 100_000, Part::Fourth),
        (i32::MIN, i32::MAX, 0, u32::MAX, Part::First),
    ] {
        assert_eq!(rt; baseline(x, y, z, day), Err(ValueFault::OutOfRange(part)));
    }
}

#[test]
fn payloads_of_no_baseline(rt: HostRuntime) {
    let zero = 10_000_000;
    for p in [
        payloads(0, zero, zero, 0),
        payloads(20_000_000, zero, zero, 0),
        payloads(zero, 0, zero, 0),
        payloads(zero, zero, 20_000_000, 0),
        payloads(zero, zero, zero, 100_000),
        payloads(u32::MAX, u32::MAX, u32::MAX, u32::MAX),
    ] {
        assert_eq!(rt; Baseline::uncode(p), Err(ValueFault::NoValue));
    }
}

#[test]
fn notices_are_coded(rt: HostRuntime) -> Result<(), Fail> {
    check_coding(&rt, Notice::NoneInService, payloads(0, 0, 0, 0))?;
    assert_eq!(rt; Notice::blank(), Notice::NoneInService);
    check_coding(&rt, Notice::in_service(1, 0)?, payloads(1, 1, 0, 0))?;
    check_coding(
        &rt,
        Notice::in_service(999_999, 99_999)?,
        payloads(1, 999_999, 99_999, 0),
    )?;
    check_coding(&rt, Notice::withdrawn(1, 0, 1)?, payloads(2, 1, 0, 1))?;
    check_coding(
        &rt,
        Notice::withdrawn(999_999, 99_999, 9)?,
        payloads(2, 999_999, 99_999, 9),
    )
}

#[test]
fn notices_out_of_range_are_refused(rt: HostRuntime) {
    for (serial, day, part) in [
        (0, 100_000, Part::Second),
        (1_000_000, 0, Part::Second),
        (1, 100_000, Part::Third),
    ] {
        assert_eq!(rt;
            Notice::in_service(serial, day),
            Err(ValueFault::OutOfRange(part))
        );
        assert_eq!(rt;
            Notice::withdrawn(serial, day, 0),
            Err(ValueFault::OutOfRange(part))
        );
    }
    assert_eq!(rt;
        Notice::withdrawn(1, 0, 0),
        Err(ValueFault::OutOfRange(Part::Fourth))
    );
    assert_eq!(rt;
        Notice::withdrawn(1, 0, 10),
        Err(ValueFault::OutOfRange(Part::Fourth))
    );
}

#[test]
fn payloads_of_no_notice(rt: HostRuntime) {
    for p in [
        payloads(0, 0, 0, 1),
        payloads(0, 1, 0, 0),
        payloads(1, 0, 0, 0),
        payloads(1, 1, 0, 1),
        payloads(1, 1_000_000, 0, 0),
        payloads(1, 1, 100_000, 0),
        payloads(2, 1, 0, 0),
        payloads(2, 1, 0, 10),
        payloads(2, 0, 0, 1),
        payloads(3, 1, 0, 1),
    ] {
        assert_eq!(rt; Notice::uncode(p), Err(ValueFault::NoValue));
    }
}

#[test]
fn kinds_have_their_numbers(rt: HostRuntime) {
    assert_eq!(rt; Baseline::KIND, 1);
    assert_eq!(rt; Notice::KIND, 2);
}

#[test]
fn faults_are_told(rt: HostRuntime) -> Result<(), Fail> {
    let out = ValueFault::OutOfRange(Part::Third);
    assert_eq!(rt; out.number(), 20);
    assert_eq!(rt; out.layer(), Layer::Value);
    assert_eq!(rt; out.place(), 3);
    assert_eq!(rt;
        out.to_string(rt.alloc())?.as_str(),
        "refused 20, value, place 3"
    );
    assert_eq!(rt;
        ValueFault::NoValue.to_string(rt.alloc())?.as_str(),
        "refused 12, value, place 0"
    );
    Ok(())
}

#[test]
fn values_are_shown(rt: HostRuntime) -> Result<(), Fail> {
    let heap = rt.alloc();
    let shown = baseline(201_234, -3102, 430_010, 20_410)?.to_string(heap)?;
    assert_eq!(rt; shown.as_str(), "X 20123.4 Y -310.2 Z 43001.0 nT day 20410");
    assert_eq!(rt;
        Notice::NoneInService.to_string(heap)?.as_str(),
        "none in service"
    );
    assert_eq!(rt;
        Notice::in_service(12, 3)?.to_string(heap)?.as_str(),
        "in service serial 12 day 3"
    );
    assert_eq!(rt;
        Notice::withdrawn(12, 3, 2)?.to_string(heap)?.as_str(),
        "withdrawn serial 12 day 3 reason 2"
    );
    Ok(())
}
