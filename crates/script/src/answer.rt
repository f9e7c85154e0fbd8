//! What the calls of a script answer, and how many were accepted.
ghost use Rattle.std.specs.Prelude.{◌≡◌, Bool, IfOk, Some};
ghost use Rattle.std.specs.List.{AllZip};
ghost use Rattle.script.specs.Answers.{Sums, summary_text};

use std::alloc::{AllocError, Global};
use std::fmt;

/// An answer that tells whether the call was accepted.
pub trait Verdict {
    ghost accepted: { Self → Bool };

    /// Whether the call was accepted.
    fn is_accepted(&self) -> bool
        ensures { result ≡ accepted self.now };
}

/// A call that a rule answers. `answers` tells which rule answers what.
pub trait Answerable<R> {
    type Answer: Verdict + fmt::Display + Drop;

    ghost answers: { R → Self → Self.Answer → Type 0 };

    /// The answer to this call.
    fn answer(&self, heap: Global, rule: &R) -> Result<Self::Answer, AllocError>
        ensures { IfOk result (answers rule.now self.now) };
}

/// The answers to the calls, in order.
pub fn answers_to<R, C: Answerable<R>>(
    heap: Global,
    rule: &R,
    calls: &[C],
) -> Result<Vec<C::Answer>, AllocError>
    ensures { IfOk result (λ v. AllZip (C.answers rule.now) calls.now v.items) }
{
    let answer = |call: &C| call.answer(heap, rule);
    calls.iter().map(answer).try_collect(heap)
}

/// How many calls were made, accepted and refused.
#[derive(Clone, Copy, PartialEq, Eq, Debug)]
pub struct Summary {
    pub calls: usize,
    pub accepted: usize,
    pub refused: usize,
}

impl fmt::Display for Summary {
    ghost output = { λ s. Some (summary_text s) };

    fn fmt<W: fmt::Write>(&self, f: &mut fmt::Formatter<W>) -> fmt::Result {
        let calls = self.calls;
        let accepted = self.accepted;
        let refused = self.refused;
        write!(f, "{calls} calls: {accepted} accepted, {refused} refused")
    }
}

/// The summary of these answers.
pub fn summary_of<A: Verdict>(answers: &[A]) -> Summary
    ensures { Sums A.accepted answers.now result }
{
    let calls = answers.len();
    let accepted = answers.iter().filter(|answer| answer.is_accepted()).count();
    Summary {
        calls,
        accepted,
        refused: calls - accepted,
    }
}
