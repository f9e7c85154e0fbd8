//! The language as a whole, for a script about one kind of value.
ghost use Rattle.std.specs.Prelude.{⊤};
ghost use Rattle.codescript.specs.Lines.{Means};

use super::line::{Call, Setup, read_line};
use notation::written::Written;
use script::language::Language;
use script::line::Line;
use std::alloc::{AllocError, Global};
use std::convert::Infallible;
use std::marker::PhantomData;

/// The language, where the values are of the kind `V`. It sets up no rule.
pub struct CodeScript<V> {
    of: PhantomData<V>,
}

impl<V: Written + Drop> Language for CodeScript<V> {
    type Setup = Setup;

    type Rule = ();

    type NoRule = Infallible;

    type Call = Call<V>;

    ghost means = { Means V.Written.written };

    ghost makes = { λ _ _. ⊤ };

    fn read_line(
        _heap: Global,
        words: &[&str],
    ) -> Result<Option<Line<Setup, Call<V>>>, AllocError> {
        Ok(read_line::<V>(words))
    }

    fn rule_of(_lines: &[Option<Line<Setup, Call<V>>>]) -> Result<(), Infallible> {
        Ok(())
    }
}
