//! Scripts, good and bad.
use codescript::language::CodeScript;
use rulescript::language::RuleScript;
use script::answer::{answers_to, summary_of};
use script::kind::Kind;
use script::language::Language;
use script::order::kind_of;
use script::reading::{Unread, read_lines, read_script};
use std::alloc::{AllocError, Global};
use std::process::Abort;
use std::test::Fail;
use values::baseline::Baseline;
use values::notice::Notice;

/// The answers and the summary, or the bad lines, a line each, or why there is no such rule.
fn outcome<L: Language>(heap: Global, text: &str) -> Result<String, AllocError> {
    let mut out = String::new(heap);
    match read_script::<L>(heap, text) {
        Ok(script) => {
            let answers = answers_to(heap, &script.rule, script.calls.as_slice())?;
            for answer in answers.as_slice() {
                out.push_str(format!(in heap; "{answer}\n")?.as_str())?;
            }
            let summary = summary_of(answers.as_slice());
            out.push_str(format!(in heap; "{summary}")?.as_str())?;
        }
        Err(Unread::Bad(lines)) => {
            for line in lines.as_slice() {
                out.push_str(format!(in heap; "{line}\n")?.as_str())?;
            }
        }
        Err(Unread::Rule(none)) => out.push_str(format!(in heap; "rule: {none}")?.as_str())?,
        Err(Unread::Memory) => out.push_str("no memory")?,
    }
    Ok(out)
}

/// Asserts that the script has this outcome in the language.
fn tells<L: Language>(rt: &(impl Abort + AllocGlobal), text: &str, told: &str) -> Result<(), Fail> {
    assert_eq!(rt; outcome::<L>(rt.alloc(), text)?.as_str(), told);
    Ok(())
}

/// Asserts that the lines of the text set up this kind of value in the language.
fn sets_up<L: Language>(
    rt: &(impl Abort + AllocGlobal),
    text: &str,
    kind: Kind,
) -> Result<(), Fail> {
    let lines = read_lines::<L>(rt.alloc(), text)?;
    assert_eq!(rt; kind_of(lines.as_slice()), kind);
    Ok(())
}

#[test]
fn an_empty_script(rt: HostRuntime) -> Result<(), Fail> {
    for text in [
        "",
        "\n\n",
        "   \n# nothing\n\t # here\r\n",
        "value baseline\n",
    ] {
        let told = "0 calls: 0 accepted, 0 refused";
        tells::<CodeScript<Baseline>>(&rt, text, told)?;
        tells::<RuleScript<Baseline>>(&rt, text, told)?;
    }
    Ok(())
}

#[test]
fn a_sheet_of_baselines(rt: HostRuntime) -> Result<(), Fail> {
    let text =
        "value baseline # set up\r\n\r\ncode 20123.4 -310.2 43001 20410\r\n code 1000000 0 0 0#last\r\ncode 0x10 -0.1 0 0x1F";
    let told =
        "code: 10201234 9996898 10430010 20410\ncode: refused 20, value, place 1\ncode: 10000160 9999999 10000000 31\n3 calls: 2 accepted, 1 refused";
    tells::<CodeScript<Baseline>>(&rt, text, told)?;
    tells::<RuleScript<Baseline>>(&rt, text, told)
}

#[test]
fn a_sheet_of_notices(rt: HostRuntime) -> Result<(), Fail> {
    let text =
        "value notice\ncode none\ncode in-service 12 3\ncode withdrawn 12 3 2\ncode withdrawn 12 3 0\ncode in-service 0 100000\n";
    let told =
        "code: 0 0 0 0\ncode: 1 12 3 0\ncode: 2 12 3 2\ncode: refused 20, value, place 4\ncode: refused 20, value, place 2\n5 calls: 3 accepted, 2 refused";
    tells::<CodeScript<Notice>>(&rt, text, told)?;
    tells::<RuleScript<Notice>>(&rt, text, told)
}

#[test]
fn every_bad_line_is_told(rt: HostRuntime) -> Result<(), Fail> {
    let text =
        "code 1 2 3\nvalue\nvalue baseline\ncodes 1 2 3 4\nvalue notice\ncode 0 0 0 0\ncode 0.05 0 0 0\nvalue baseline\n#\ncode 0 0 0 0 0\ncode 0 0 0 -1\nvalue baseline notice\ncode none";
    let told =
        "line 1: cannot be read\nline 2: cannot be read\nline 4: cannot be read\nline 5: set up already\nline 7: cannot be read\nline 8: set-up after the first call\nline 10: cannot be read\nline 11: cannot be read\nline 12: cannot be read\nline 13: cannot be read\n";
    tells::<CodeScript<Baseline>>(&rt, text, told)?;
    tells::<RuleScript<Baseline>>(&rt, text, told)
}

#[test]
fn the_kind_is_set_up(rt: HostRuntime) -> Result<(), Fail> {
    for (text, kind) in [
        ("", Kind::Baseline),
        ("value baseline\nvalue notice", Kind::Baseline),
        (
            "# a comment\nnonsense\nvalue notice\ncode none",
            Kind::Notice,
        ),
    ] {
        sets_up::<CodeScript<Baseline>>(&rt, text, kind)?;
        sets_up::<RuleScript<Baseline>>(&rt, text, kind)?;
    }
    Ok(())
}

#[test]
fn choices_by_number(rt: HostRuntime) -> Result<(), Fail> {
    for (text, told) in [
        (
            "choose read\nchoose write\n",
            "choose read: 1\nchoose write: 1 2 3 5 6 8 9 14 15 17 18 23 24 26 27\n2 calls: 2 accepted, 0 refused",
        ),
        (
            "rule tree 3 2\nchoose read away 1 2 3\nchoose write away 1\nchoose read away 1 3 2 3 1\n",
            "choose read: 4 5 6\nchoose write: refused 7, rule, place 0\nchoose read: 4 5 6\n3 calls: 2 accepted, 1 refused",
        ),
        (
            "rule levels 3 2\nchoose write away 4 7 8 11 12\nchoose read away 1\n",
            "choose write: 1 2 3 5 6 9 10 13\nchoose read: 2 3\n2 calls: 2 accepted, 0 refused",
        ),
        (
            "rule votes 3 2 1 1 0\nchoose write\nchoose read away 1\nchoose read away 1 2 3\n",
            "choose write: 1 2\nchoose read: 2 3\nchoose read: refused 6, rule, place 0\n3 calls: 2 accepted, 1 refused",
        ),
        (
            "rule tree 3 2\nchoose read away 13 14 0\nchoose write away 0\nchoose read away 13\n",
            "choose read: no such copy 14\nchoose write: no such copy 0\nchoose read: 1\n3 calls: 1 accepted, 2 refused",
        ),
    ] {
        tells::<RuleScript<Baseline>>(&rt, text, told)?;
    }
    Ok(())
}

#[test]
fn rules_that_are_refused(rt: HostRuntime) -> Result<(), Fail> {
    for (text, told) in [
        (
            "rule tree 3 4\nchoose read",
            "rule: refused 15, tree, place 0",
        ),
        ("rule levels 4 1", "rule: refused 15, tree, place 0"),
        ("rule votes 2 2 1 1 0", "rule: refused 16, rule, place 0"),
        ("rule votes 3 2 1 256", "rule: refused 16, rule, place 0"),
        ("rule votes 1", "rule: refused 14, rule, place 1"),
    ] {
        tells::<RuleScript<Baseline>>(&rt, text, told)?;
    }
    Ok(())
}

#[test]
fn bad_lines_for_rules_and_choices(rt: HostRuntime) -> Result<(), Fail> {
    let text =
        "rule\nrule tree 3\nrule tree 3 2 1\nrule votes\nrule levels 3 x\nrule tree 3 4\nrule votes 1 1\nchoose\nchoose both\nchoose read away\nchoose read 1\nchoose read away 1 two\nchoose read away 4294967296\nchoose write\nrule tree 3 2\naway 1\nback 1";
    let told =
        "line 1: cannot be read\nline 2: cannot be read\nline 3: cannot be read\nline 4: cannot be read\nline 5: cannot be read\nline 7: set up already\nline 8: cannot be read\nline 9: cannot be read\nline 10: cannot be read\nline 11: cannot be read\nline 12: cannot be read\nline 13: cannot be read\nline 15: set-up after the first call\nline 16: cannot be read\nline 17: cannot be read\n";
    tells::<RuleScript<Baseline>>(&rt, text, told)
}
