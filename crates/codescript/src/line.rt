//! The lines of the language: what each form of line means.
ghost use Rattle.codescript.specs.Lines.{Means, same_setup, setup_kind};
ghost use Rattle.notation.specs.Words.{Tells, texts};

use notation::written::Written;
use script::kind::{Kind, read_kind};
use script::line::{Line, SetsUp};
use values::fault::ValueFault;

/// A line that sets something up, before the first call.
#[derive(Clone, Copy, PartialEq, Eq, Debug)]
pub enum Setup {
    Value(Kind),
}

impl SetsUp for Setup {
    ghost same = { same_setup };

    ghost kind = { setup_kind };

    fn is_same(&self, other: &Setup) -> bool {
        match (self, other) {
            (Setup::Value(_), Setup::Value(_)) => true,
        }
    }

    fn value_kind(&self) -> Option<Kind> {
        match self {
            Setup::Value(kind) => Some(*kind),
        }
    }
}

/// A call. A value in it is the value written, or the refusal where a part of it is out of range.
#[derive(Drop)]
pub enum Call<V> {
    Code(Result<V, ValueFault>),
}

/// What a line of these words means; `None` where it means nothing.
pub fn read_line<V: Written>(words: &[&str]) -> Option<Line<Setup, Call<V>>>
    ensures { Tells (Means V.Written.written) (texts words.now) result }
{
    let Some((name, rest)) = words.split_first() else {
        return Some(Line::Nothing);
    };
    match *name {
        "value" => Some(Line::Setup(Setup::Value(read_kind(rest)?))),
        "code" => Some(Line::Call(Call::Code(V::read(rest)?))),
        _ => None,
    }
}
