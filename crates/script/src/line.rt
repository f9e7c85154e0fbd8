//! The lines of a script.
ghost use Rattle.std.specs.Prelude.{◌≡◌, Bool, Option};
ghost use Rattle.script.specs.declared.kind.Kind.{Kind};

use super::kind::Kind;

/// A line of a script.
#[derive(Drop)]
pub enum Line<S, C> {
    Nothing,
    /// It sets something up, before the first call.
    Setup(S),
    Call(C),
}

/// What a line can set up. `same` tells whether two set up the same thing, and `kind` which kind of value one sets up.
pub trait SetsUp {
    ghost same: { Self → Self → Bool };

    ghost kind: { Self → Option Kind };

    /// Whether the two set up the same thing.
    fn is_same(&self, other: &Self) -> bool
        ensures { result ≡ same self.now other.now };

    /// The kind of value that it sets up, if it does.
    fn value_kind(&self) -> Option<Kind>
        ensures { result ≡ kind self.now };
}
