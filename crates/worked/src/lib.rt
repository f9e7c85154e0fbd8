//! Worked cases: a table of what rules choose and what is refused, held against the definitions that the contracts of
//! the calls cite.
#![tactic(auto)]

ghost use Rattle.std.specs.List.{AllByRecursion};
ghost use Rattle.worked.specs.Table.{Has, table};
ghost use Rattle.std.specs.Prelude.{◌≡◌, length};

/// How many cases the table has; every one of them has the answer that the table gives it.
pub fn cases() -> u32
    ensures count { result ≡ length table }
    ensures right { AllByRecursion (λ c. Has c.0 c.1) table }
{
    22
}
