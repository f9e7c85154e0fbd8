//! The language as a whole, for a script about one kind of value.
ghost use Rattle.anyrule.specs.Making.{Makes};
ghost use Rattle.rulescript.specs.Lines.{Means};
ghost use Rattle.rulescript.specs.Rules.{rule_of};

use super::line::{Call, Setup, read_line};
use super::rule::rule_of;
use anyrule::{AnyRule, FormFault};
use notation::written::Written;
use script::language::Language;
use script::line::Line;
use std::alloc::{AllocError, Global};
use std::marker::PhantomData;

/// The language, where the values are of the kind `V`.
pub struct RuleScript<V> {
    of: PhantomData<V>,
}

impl<V: Written + Drop> Language for RuleScript<V> {
    type Setup = Setup;

    type Rule = AnyRule;

    type NoRule = FormFault;

    type Call = Call<V>;

    ghost means = { Means V.Written.written };

    ghost makes = { λ lines r. Makes (rule_of lines) r };

    fn read_line(heap: Global, words: &[&str]) -> Result<Option<Line<Setup, Call<V>>>, AllocError> {
        read_line::<V>(heap, words)
    }

    fn rule_of(lines: &[Option<Line<Setup, Call<V>>>]) -> Result<AnyRule, FormFault> {
        rule_of(lines)
    }
}
