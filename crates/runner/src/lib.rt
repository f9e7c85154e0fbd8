//! Runs the scripts that a program is given, and prints what each call answers.
//!
//! With no argument the script is standard input. Each argument is a file with a script of its own. Lines that cannot
//! be read are told on standard error, all of them, and the program ends with status 1 before any call is made.
#![tactic(auto)]

use anyhow::anyhow;
use script::answer::{answers_to, summary_of};
use script::kind::Kind;
use script::language::Language;
use script::order::kind_of;
use script::reading::{Script, Unread, read_lines, read_script};
use std::env::{self, Env};
use std::fs::{self, Files};
use std::io::{self, Eprint, Input, Print};
use std::process::ExitCode;

/// Prints the answer to each call, and then how many there were.
fn run_calls<L: Language>(
    rt: &(impl Print + AllocGlobal),
    script: &Script<L::Rule, L::Call>,
) -> anyhow::Result<()> {
    let answers = answers_to(rt.alloc(), &script.rule, script.calls.as_slice())?;
    for answer in answers.as_slice() {
        println!(rt; "{answer}")?;
    }
    let summary = summary_of(answers.as_slice());
    println!(rt; "{summary}")?;
    Ok(())
}

/// Runs the script that the text is, or tells its bad lines, or why there is no such rule.
fn run_script<L: Language>(
    rt: &(impl Print + Eprint + AllocGlobal),
    text: &str,
) -> anyhow::Result<()> {
    match read_script::<L>(rt.alloc(), text) {
        Ok(script) => run_calls::<L>(rt, &script),
        Err(Unread::Memory) => Err(anyhow!("out of memory")),
        Err(Unread::Bad(lines)) => {
            for line in lines.as_slice() {
                eprintln!(rt; "{line}")?;
            }
            Err(anyhow!("nothing was done"))
        }
        Err(Unread::Rule(none)) => {
            println!(rt; "rule: {none}")?;
            Err(anyhow!("nothing was done"))
        }
    }
}

/// Runs the script that the text is, on the kind of value that it sets up.
fn run_text<B: Language, N: Language>(
    rt: &(impl Print + Eprint + AllocGlobal),
    text: &str,
) -> anyhow::Result<()> {
    let lines = read_lines::<B>(rt.alloc(), text)?;
    match kind_of(lines.as_slice()) {
        Kind::Baseline => run_script::<B>(rt, text),
        Kind::Notice => run_script::<N>(rt, text),
    }
}

/// Runs the scripts that the arguments name, or standard input.
fn run<B: Language, N: Language>(
    rt: &(impl Print + Eprint + Input + Env + Files + AllocGlobal),
) -> anyhow::Result<()> {
    let mut files = env::args(rt)?.skip(1).peekable();
    if files.peek().is_none() {
        let text = io::read_to_string(rt.alloc(), rt.reader())?;
        run_text::<B, N>(rt, text.as_str())?;
    }
    for file in files {
        let text = fs::read_to_string(rt, file.as_str())?;
        run_text::<B, N>(rt, text.as_str())?;
    }
    Ok(())
}

/// The program of this name, for a language where the values are baselines or notices.
pub fn run_program<B: Language, N: Language>(
    rt: &(impl Print + Eprint + Input + Env + Files + AllocGlobal),
    name: &str,
) -> ExitCode {
    match run::<B, N>(rt) {
        Ok(()) => ExitCode::SUCCESS,
        Err(e) => {
            let _ = eprintln!(rt; "{name}: {e}");
            ExitCode::FAILURE
        }
    }
}
