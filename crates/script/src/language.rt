//! What sets one language of scripts apart from another.
ghost use Rattle.std.specs.Prelude.{ℕ, IfOk, List, Option, Result};
ghost use Rattle.notation.specs.Words.{Tells, texts};
ghost use Rattle.script.specs.declared.line.Line.{Line};

use super::answer::Answerable;
use super::line::{Line, SetsUp};
use std::alloc::{AllocError, Global};
use std::fmt;

/// A language of scripts. `means` tells which words mean which line, and `makes` which rule the lines set up, or why
/// there is none.
pub trait Language {
    /// What a line can set up.
    type Setup: SetsUp + Drop;
    /// The rule that the calls of a script ask.
    type Rule: Drop;
    /// Why there is no such rule.
    type NoRule: fmt::Display + Drop;

    /// What a line can call for.
    type Call: Answerable<Self::Rule> + Drop;

    ghost means: { List (List ℕ) → Line Self.Setup Self.Call → Type 0 };

    ghost makes: { List (Option (Line Self.Setup Self.Call)) → Result Self.Rule Self.NoRule → Type 0 };

    /// What a line of these words means; `None` where it means nothing.
    fn read_line(
        heap: Global,
        words: &[&str],
    ) -> Result<Option<Line<Self::Setup, Self::Call>>, AllocError>
        ensures { IfOk result (λ o. Tells means (texts words.now) o) };

    /// The rule that the lines set up.
    fn rule_of(lines: &[Option<Line<Self::Setup, Self::Call>>]) -> Result<Self::Rule, Self::NoRule>
        ensures { makes lines.now result };
}
