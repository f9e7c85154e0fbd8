//! Numbers that are read and shown.
use numbers::tenths::{NotTenths, Tenths};
use numbers::whole::read_whole;
use std::test::Fail;

#[test]
fn tenths_are_read(rt: HostRuntime) {
    let good = [
        ("-0.1", -1),
        ("-0", 0),
        ("0.0", 0),
        ("20123.4", 201_234),
        ("-310.2", -3102),
        ("43001", 430_010),
        ("007.5", 75),
        ("0x10", 160),
        ("-0x1F", -310),
        ("214748364.7", i32::MAX),
        ("-214748364.8", i32::MIN),
    ];
    for (text, tenths) in good {
        assert_eq!(rt; text.parse::<Tenths>(), Ok(Tenths(tenths)), "{}", text);
    }
}

#[test]
fn other_texts_are_no_tenths(rt: HostRuntime) {
    let bad = [
        "",
        "-",
        "--1",
        "+5",
        "5.",
        ".5",
        "0.05",
        "1.25",
        "1.2.3",
        "1 2",
        "1,5",
        "1e3",
        "x",
        "0x",
        "0x1.5",
        "0x-1",
        "214748364.8",
        "-214748364.9",
        "99999999999999999999",
    ];
    for text in bad {
        assert_eq!(rt; text.parse::<Tenths>(), Err(NotTenths), "{}", text);
    }
}

#[test]
fn tenths_are_shown(rt: HostRuntime) -> Result<(), Fail> {
    let shown = [
        (0, "0.0"),
        (-1, "-0.1"),
        (9, "0.9"),
        (201_234, "20123.4"),
        (-3102, "-310.2"),
        (i32::MIN, "-214748364.8"),
    ];
    for (tenths, text) in shown {
        let written = Tenths(tenths).to_string(rt.alloc())?;
        assert_eq!(rt; written.as_str(), text);
        assert_eq!(rt; text.parse::<Tenths>(), Ok(Tenths(tenths)), "{}", text);
    }
    Ok(())
}

#[test]
fn whole_numbers_are_read(rt: HostRuntime) {
    assert_eq!(rt; read_whole("0"), Some(0));
    assert_eq!(rt; read_whole("4294967295"), Some(u32::MAX));
    assert_eq!(rt; read_whole("0xfFfFffff"), Some(u32::MAX));
    assert_eq!(rt; read_whole("00012"), Some(12));
    for text in [
        "",
        "4294967296",
        "0x100000000",
        "0x",
        "0X1",
        "-1",
        "+1",
        "1.0",
        "12a",
        "0x12g",
    ] {
        assert_eq!(rt; read_whole(text), None, "{}", text);
    }
}
