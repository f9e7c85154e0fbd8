//! What the calls answer, and how that is told.
ghost use Rattle.rulescript.specs.Answers.{Answers, accepted, answer_text, chosen_text, spaced};
ghost use Rattle.rulescript.specs.declared.answer.Answer.{Answer};
ghost use Rattle.rulescript.specs.declared.line.Call.{Call};
ghost use Rattle.std.specs.Prelude.{◌≡◌, IfOk, Some};
ghost use Rattle.std.specs.Fmt.{WritesOnOk};

use super::line::Call;
use choosing::{NoChoice, choose_without};
use families::Quorum;
use faults::{Fault, Refusal};
use quorum::rule::Rule;
use script::answer::{Answerable, Verdict};
use std::alloc::{AllocError, Global};
use std::fmt;
use values::value::{Payloads, Value};

/// The answer to a call; `Code` is written out as in the smaller language, since its calls are.
#[derive(Drop)]
pub enum Answer {
    Code(Result<Payloads, Refusal>),
    /// The copies chosen, by number.
    Choose(Quorum, Result<Vec<u32>, NoChoice>),
}

/// Writes the numbers, each after a space: a loop, since a proof knows nothing of what a closure of `try_for_each` wrote.
fn write_numbers<W: fmt::Write>(f: &mut fmt::Formatter<W>, numbers: &[u32]) -> fmt::Result
    ensures { WritesOnOk W.Write.write_str_gives f.old result (spaced numbers.now) f.new }
{
    for number in numbers {
        write!(f, " {number}")?;
    }
    Ok(())
}

/// Writes the numbers of the copies chosen, or why there are none.
fn write_chosen<W: fmt::Write>(
    f: &mut fmt::Formatter<W>,
    chosen: &Result<Vec<u32>, NoChoice>,
) -> fmt::Result
    ensures { WritesOnOk W.Write.write_str_gives f.old result (chosen_text chosen.now) f.new }
{
    match chosen {
        Ok(copies) => write_numbers(f, copies.as_slice()),
        Err(none) => write!(f, " {none}"),
    }
}

impl fmt::Display for Answer {
    ghost output = { λ a. Some (answer_text a) };

    fn fmt<W: fmt::Write>(&self, f: &mut fmt::Formatter<W>) -> fmt::Result {
        match self {
            Answer::Code(Ok(payloads)) => write!(f, "code: {payloads}"),
            Answer::Code(Err(refusal)) => write!(f, "code: {refusal}"),
            Answer::Choose(quorum, chosen) => {
                write!(f, "choose {quorum}:")?;
                write_chosen(f, chosen)
            }
        }
    }
}

impl Verdict for Answer {
    ghost accepted = { accepted };

    fn is_accepted(&self) -> bool {
        match self {
            Answer::Code(result) => result.is_ok(),
            Answer::Choose(_, chosen) => chosen.is_ok(),
        }
    }
}

/// The answer to a call.
pub fn answer_to<R: Rule, V: Value>(
    heap: Global,
    rule: &R,
    call: &Call<V>,
) -> Result<Answer, AllocError>
    ensures { IfOk result (λ a. Answers (R.Rule.meaning rule.now) V.Value.coded call.now a) }
{
    match call {
        Call::Code(Ok(value)) => Ok(Answer::Code(Ok(value.code()))),
        Call::Code(Err(fault)) => Ok(Answer::Code(Err(fault.refusal()))),
        Call::Choose { quorum, away } => {
            let chosen = choose_without(heap, rule, *quorum, away.as_slice())?;
            Ok(Answer::Choose(*quorum, chosen))
        }
    }
}

impl<R: Rule, V: Value> Answerable<R> for Call<V> {
    type Answer = Answer;

    ghost answers = { λ r c a. Answers (R.Rule.meaning r) V.Value.coded c a };

    fn answer(&self, heap: Global, rule: &R) -> Result<Answer, AllocError> {
        answer_to(heap, rule, self)
    }
}
