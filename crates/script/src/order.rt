//! The lines of a script one after the other: which are bad, what is set up, and the calls in order.
ghost use Rattle.std.specs.Prelude.{◌≡◌, ℕ, [], ◌++◌, IfOk, Some, codes, decimal};
ghost use Rattle.std.specs.List.{list_any};
ghost use Rattle.script.specs.Order.{bad_lines, call_in, calls_of, cause_text, fault_at, is_call, kind_in, kind_of, sets_same, setup_fault};

use super::kind::Kind;
use super::line::{Line, SetsUp};
use std::alloc::{AllocError, Global};
use std::fmt;

/// What is wrong with a line.
#[derive(Clone, Copy, PartialEq, Eq, Debug)]
pub enum Cause {
    /// It is no line of the language.
    Unreadable,
    /// It sets something up after the first call.
    Late,
    /// It sets up what an earlier line has set up.
    Twice,
}

impl fmt::Display for Cause {
    ghost output = { λ c. Some (cause_text c) };

    fn fmt<W: fmt::Write>(&self, f: &mut fmt::Formatter<W>) -> fmt::Result {
        match self {
            Cause::Unreadable => f.write_str("cannot be read"),
            Cause::Late => f.write_str("set-up after the first call"),
            Cause::Twice => f.write_str("set up already"),
        }
    }
}

/// A line that is wrong, by its number, counted from 1.
#[derive(Clone, Copy, PartialEq, Eq, Debug)]
pub struct BadLine {
    pub number: usize,
    pub cause: Cause,
}

impl fmt::Display for BadLine {
    ghost output = { λ b. Some (codes "line " ++ (decimal b.number ++ (codes ": " ++ cause_text b.cause))) };

    fn fmt<W: fmt::Write>(&self, f: &mut fmt::Formatter<W>) -> fmt::Result {
        let number = self.number;
        let cause = self.cause;
        write!(f, "line {number}: {cause}")
    }
}

/// Whether the line is a call.
fn is_call<S, C>(line: &Option<Line<S, C>>) -> bool
    ensures { result ≡ is_call line.now }
{
    matches!(line, Some(Line::Call(_)))
}

/// Whether the line sets up the same thing.
fn sets_same<S: SetsUp, C>(setup: &S, line: &Option<Line<S, C>>) -> bool
    ensures { result ≡ sets_same S.same setup.now line.now }
{
    match line {
        Some(Line::Setup(other)) => setup.is_same(other),
        _ => false,
    }
}

/// Whether one of the lines is a call.
fn any_call<S, C>(lines: &[Option<Line<S, C>>]) -> bool
    ensures { result ≡ list_any is_call lines.now }
{
    lines.iter().any(is_call)
}

/// Whether one of the lines sets up the same thing.
fn any_setup<S: SetsUp, C>(lines: &[Option<Line<S, C>>], setup: &S) -> bool
    ensures { result ≡ list_any (sets_same S.same setup.now) lines.now }
{
    lines.iter().any(|line| sets_same(setup, line))
}

/// What is wrong with a line after the lines before it, if anything is.
fn fault_at<S: SetsUp, C>(before: &[Option<Line<S, C>>], line: &Option<Line<S, C>>) -> Option<Cause>
    ensures { result ≡ fault_at S.same before.now line.now }
{
    match line {
        None => Some(Cause::Unreadable),
        Some(Line::Setup(setup)) => setup_fault(before, setup),
        Some(Line::Nothing | Line::Call(_)) => None,
    }
}

/// What is wrong with setting this up after these lines, if anything is.
fn setup_fault<S: SetsUp, C>(before: &[Option<Line<S, C>>], setup: &S) -> Option<Cause>
    ensures { result ≡ setup_fault S.same before.now setup.now }
{
    if any_call(before) {
        Some(Cause::Late)
    } else if any_setup(before, setup) {
        Some(Cause::Twice)
    } else {
        None
    }
}

/// The bad lines, in order.
pub fn bad_lines<S: SetsUp, C>(
    heap: Global,
    lines: &[Option<Line<S, C>>],
) -> Result<Vec<BadLine>, AllocError>
    ensures { IfOk result (λ v. v.items ≡ bad_lines S.same [] lines.now) }
{
    // A loop, since what is wrong with a line depends on the lines before it.
    let mut bad = Vec::new(heap);
    for (i, line) in lines.iter().enumerate() {
        if let Some(cause) = fault_at(&lines[..i], line) {
            bad.push(BadLine {
                number: i + 1,
                cause,
            })?;
        }
    }
    Ok(bad)
}

/// The call that a line is, if it is one.
fn call_in<S: Drop, C: Drop>(line: Option<Line<S, C>>) -> Option<C>
    ensures { result ≡ call_in line }
{
    match line {
        Some(Line::Call(call)) => Some(call),
        _ => None,
    }
}

/// The calls, in order.
pub fn calls_of<S: Drop, C: Drop>(
    heap: Global,
    lines: Vec<Option<Line<S, C>>>,
) -> Result<Vec<C>, AllocError>
    ensures { IfOk result (λ v. v.items ≡ calls_of lines.items) }
{
    lines.into_iter().filter_map(call_in).collect(heap)
}

/// The kind of value that a line sets up, if it does.
fn kind_in<S: SetsUp, C>(line: &Option<Line<S, C>>) -> Option<Kind>
    ensures { result ≡ kind_in S.kind line.now }
{
    match line {
        Some(Line::Setup(setup)) => setup.value_kind(),
        _ => None,
    }
}

/// The kind of value that the lines set up first, else baselines.
pub fn kind_of<S: SetsUp, C>(lines: &[Option<Line<S, C>>]) -> Kind
    ensures { result ≡ kind_of S.kind lines.now }
{
    lines.iter().find_map(kind_in).unwrap_or(Kind::Baseline)
}
