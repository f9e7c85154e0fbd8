//! Numbers in tenths of a unit, written with a decimal point.
ghost use Rattle.std.specs.Prelude.{◌≡◌, ℕ, ◌+◌, ◌*◌, ◌^◌, ◌<◌, [], ◌∷◌, ℤ, Some, MatchOption, FitsSigned, ◌≢◌, unsigned_abs};
ghost use Rattle.numbers.specs.Written.{Size, Writes, tenths_text};
ghost use Rattle.numbers.specs.declared.tenths.Tenths.{Tenths};
ghost use Rattle.std.specs.Int.{w32};

use super::whole::{read_digits, read_whole};
use std::fmt;
use std::str::FromStr;

/// A number in tenths of a unit: 201234 is written `20123.4`.
#[derive(Clone, Copy, PartialEq, Eq, Debug)]
pub struct Tenths(pub i32);

impl fmt::Display for Tenths {
    ghost output = { λ t. Some (tenths_text t.0) };

    fn fmt<W: fmt::Write>(&self, f: &mut fmt::Formatter<W>) -> fmt::Result {
        let size = self.0.unsigned_abs();
        let whole = size / 10;
        let place = size % 10;
        if self.0 < 0 {
            write!(f, "-{whole}.{place}")
        } else {
            write!(f, "{whole}.{place}")
        }
    }
}

/// A text that writes no number in tenths, or one that does not fit.
#[derive(Clone, Copy, PartialEq, Eq, Debug)]
pub struct NotTenths;

/// The number that a text writes: a whole number, or decimal digits with a point and one decimal place, either with or
/// without a minus sign in front. The text that a number is shown as reads as that number.
impl FromStr for Tenths {
    ghost use Rattle.numbers.specs.Reads.{ReadsTenths};

    type Err = NotTenths;

    ghost from_str_gives = { ReadsTenths };

    fn from_str(text: &str) -> Result<Tenths, NotTenths> {
        let Some(number) = read_signed(text) else {
            return Err(NotTenths);
        };
        match i32::try_from(number) {
            Ok(tenths) => Ok(Tenths(tenths)),
            Err(_) => Err(NotTenths),
        }
    }
}

/// The number in tenths that `text` writes, where its size is below 2^32.
fn read_signed(text: &str) -> Option<i64>
    ensures { MatchOption result ((z : ℤ) → unsigned_abs z < 2 ^ 32 → Writes text.now z → ⊥) (λ z. Writes text.now z) }
{
    match text.strip_prefix('-') {
        Some(rest) => Some(-i64::from(read_size(rest)?)),
        None => Some(i64::from(read_size(text)?)),
    }
}

/// The size in tenths that `text` writes, where it is below 2^32.
fn read_size(text: &str) -> Option<u32>
    ensures { MatchOption result ((n : ℕ) → n < 2 ^ 32 → Size text.now n → ⊥) (λ n. Size text.now n) }
{
    match text.split_once('.') {
        Some((digits, place)) => tens_and_place(read_digits(digits, 10)?, read_place(place)?),
        None => tens_and_place(read_whole(text)?, 0),
    }
}

/// Ten times `whole`, and `place`, where that is below 2^32.
fn tens_and_place(whole: u32, place: u32) -> Option<u32>
    ensures { MatchOption result (10 * whole + place < 2 ^ 32 → ⊥) (λ n. n ≡ 10 * whole + place) }
{
    whole.checked_mul(10)?.checked_add(place)
}

/// The decimal place that `text` is: one digit.
fn read_place(text: &str) -> Option<u32>
    ensures { MatchOption result ((d : ℕ) → d < 10 → text.now ≢ (48 + d) ∷ []) (λ d. (d < 10) × (text.now ≡ (48 + d) ∷ [])) }
{
    match text.as_bytes() {
        [b] if b.is_ascii_digit() => Some(u32::from(*b - b'0')),
        _ => None,
    }
}
