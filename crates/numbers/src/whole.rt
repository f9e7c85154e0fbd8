//! Whole numbers, in decimal or hexadecimal digits.
ghost use Rattle.std.specs.Prelude.{◌≡◌, ℕ, ◌^◌, ◌<◌, ◌≤◌, MatchOption};
ghost use Rattle.numbers.specs.Written.{Whole};
ghost use Rattle.std.specs.Str.Parse.{IsNumeral, digits_value};

/// The whole number that `text` writes: decimal digits, or hexadecimal digits after `0x`. `None` where the text
/// is no such number, or one of 2^32 or more. Parsing a `u32` reads other texts: a plus sign, and no `0x`.
pub fn read_whole(text: &str) -> Option<u32>
    ensures { MatchOption result ((n : ℕ) → n < 2 ^ 32 → Whole text.now n → ⊥) (λ n. Whole text.now n) }
{
    match text.strip_prefix("0x") {
        Some(digits) => read_digits(digits, 16),
        None => read_digits(text, 10),
    }
}

/// The number that digits in the base `radix` write, with no sign in front.
pub(crate) fn read_digits(digits: &str, radix: u32) -> Option<u32>
    requires low { 2 ≤ radix }
    requires high { radix ≤ 36 }
    ensures { MatchOption result (IsNumeral radix digits.now → digits_value radix digits.now < 2 ^ 32 → ⊥) (λ n. IsNumeral radix digits.now × (n ≡ digits_value radix digits.now)) }
{
    if digits.starts_with('+') {
        return None;
    }
    u32::from_str_radix(digits, radix).ok()
}
