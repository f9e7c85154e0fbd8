//! The lines of the language: what each form of line means.
ghost use Rattle.rulescript.specs.Lines.{Means, same_setup, setup_kind};
ghost use Rattle.notation.specs.Words.{Tells, texts};
ghost use Rattle.std.specs.Prelude.{IfOk};

use super::asked::{read_choose, read_rule};
use anyrule::RuleForm;
use families::Quorum;
use notation::written::Written;
use script::kind::{Kind, read_kind};
use script::line::{Line, SetsUp};
use std::alloc::{AllocError, Global};
use values::fault::ValueFault;

/// A line that sets something up, before the first call; `Value` is written out as in the smaller language.
#[derive(Drop)]
pub enum Setup {
    Rule(RuleForm),
    Value(Kind),
}

impl SetsUp for Setup {
    ghost same = { same_setup };

    ghost kind = { setup_kind };

    fn is_same(&self, other: &Setup) -> bool {
        match self {
            Setup::Rule(_) => matches!(other, Setup::Rule(_)),
            Setup::Value(_) => matches!(other, Setup::Value(_)),
        }
    }

    fn value_kind(&self) -> Option<Kind> {
        match self {
            Setup::Rule(_) => None,
            Setup::Value(kind) => Some(*kind),
        }
    }
}

/// A call. A value in it is the value written, or the refusal where a part of it is out of range. `Code` is written out as
/// in the smaller language: a call of that inside this one would be matched twice wherever it is met.
#[derive(Drop)]
pub enum Call<V> {
    Code(Result<V, ValueFault>),
    /// What the rule chooses with these copies away.
    Choose { quorum: Quorum, away: Vec<u32> },
}

/// What a line of these words means; `None` where it means nothing.
pub fn read_line<V: Written + Drop>(
    heap: Global,
    words: &[&str],
) -> Result<Option<Line<Setup, Call<V>>>, AllocError>
    ensures { IfOk result (λ o. Tells (Means V.Written.written) (texts words.now) o) }
{
    let Some((name, rest)) = words.split_first() else {
        return Ok(Some(Line::Nothing));
    };
    match *name {
        "rule" => Ok(read_rule(heap, rest)?.map(|form| Line::Setup(Setup::Rule(form)))),
        "value" => Ok(read_kind(rest).map(|kind| Line::Setup(Setup::Value(kind)))),
        "code" => Ok(V::read(rest).map(|value| Line::Call(Call::Code(value)))),
        "choose" => Ok(read_choose(heap, rest)?.map(|(quorum, away)| Line::Call(Call::Choose {
            quorum,
            away,
        }))),
        _ => Ok(None),
    }
}
