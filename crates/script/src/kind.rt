//! The kinds of value that a script can be about.
ghost use Rattle.std.specs.Prelude.{◌≡◌, ◌≢◌, MatchResult};
ghost use Rattle.notation.specs.Words.{Tells, texts};
ghost use Rattle.script.specs.Kinds.{NamesKind, kind_name};
ghost use Rattle.script.specs.declared.kind.Kind.{Kind};

use notation::words::only_word;
use std::str::FromStr;

/// The kind of value that a script is about.
#[derive(Clone, Copy, PartialEq, Eq, Debug)]
pub enum Kind {
    Baseline,
    Notice,
}

/// The text names no kind of value.
#[derive(Clone, Copy, PartialEq, Eq, Debug)]
pub struct UnknownKind;

impl FromStr for Kind {
    type Err = UnknownKind;

    ghost from_str_gives = { λ text r. MatchResult r (λ k. text ≡ kind_name k) (λ _. (k : Kind) → text ≢ kind_name k) };

    fn from_str(text: &str) -> Result<Kind, UnknownKind> {
        match text {
            "baseline" => Ok(Kind::Baseline),
            "notice" => Ok(Kind::Notice),
            _ => Err(UnknownKind),
        }
    }
}

/// The kind of value that the words name.
pub fn read_kind(words: &[&str]) -> Option<Kind>
    ensures { Tells NamesKind (texts words.now) result }
{
    only_word(words)?.parse().ok()
}
