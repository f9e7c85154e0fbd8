//! What the calls answer, and how that is told.
ghost use Rattle.std.specs.Prelude.{◌≡◌, Some};
ghost use Rattle.codescript.specs.Answers.{accepted, answer_text, answered};
ghost use Rattle.codescript.specs.declared.answer.Answer.{Answer};
ghost use Rattle.codescript.specs.declared.line.Call.{Call};

use super::line::Call;
use faults::{Fault, Refusal};
use script::answer::{Answerable, Verdict};
use std::alloc::{AllocError, Global};
use std::fmt;
use values::value::{Payloads, Value};

/// The answer to a call.
#[derive(Clone, Copy)]
pub enum Answer {
    Code(Result<Payloads, Refusal>),
}

impl fmt::Display for Answer {
    ghost output = { λ a. Some (answer_text a) };

    fn fmt<W: fmt::Write>(&self, f: &mut fmt::Formatter<W>) -> fmt::Result {
        match *self {
            Answer::Code(Ok(payloads)) => write!(f, "code: {payloads}"),
            Answer::Code(Err(refusal)) => write!(f, "code: {refusal}"),
        }
    }
}

impl Verdict for Answer {
    ghost accepted = { accepted };

    fn is_accepted(&self) -> bool {
        match self {
            Answer::Code(result) => result.is_ok(),
        }
    }
}

/// The answer to a call.
pub fn answer_to<V: Value>(call: &Call<V>) -> Answer
    ensures { result ≡ answered V.Value.coded call.now }
{
    match call {
        Call::Code(Ok(value)) => Answer::Code(Ok(value.code())),
        Call::Code(Err(fault)) => Answer::Code(Err(fault.refusal())),
    }
}

impl<V: Value> Answerable<()> for Call<V> {
    type Answer = Answer;

    ghost answers = { λ _ c a. a ≡ answered V.Value.coded c };

    fn answer(&self, _heap: Global, _rule: &()) -> Result<Answer, AllocError> {
        Ok(answer_to(self))
    }
}
