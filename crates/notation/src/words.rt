//! The words of a line, and the numbers that they write.
ghost use Rattle.std.specs.Prelude.{◌≡◌, ℕ, List, [], ◌∷◌, IfOk, MatchOption, ◌≢◌};
ghost use Rattle.notation.specs.Cutting.{LineWords, Uncommented};
ghost use Rattle.notation.specs.Words.{Numbers, Tells, Wholes, texts};

use numbers::whole::read_whole;
use std::alloc::{AllocError, Global};

/// The words of a line, before any comment.
pub fn cut_words<'a>(heap: Global, line: &'a str) -> Result<Vec<&'a str>, AllocError>
    ensures { IfOk result (λ v. LineWords line.now (texts v.items)) }
{
    uncommented(line).split_whitespace().collect(heap)
}

/// What stands before the first `#` in a line.
fn uncommented(line: &str) -> &str
    ensures { Uncommented line.now result.now }
{
    match line.split_once('#') {
        Some((text, _)) => text,
        None => line,
    }
}

/// The only word; `None` where there is no word, or more than one.
pub fn only_word<'a>(words: &[&'a str]) -> Option<&'a str>
    ensures { MatchOption result ((w : List ℕ) → texts words.now ≢ w ∷ []) (λ w. texts words.now ≡ w.now ∷ []) }
{
    match words {
        [word] => Some(*word),
        _ => None,
    }
}

/// The `N` whole numbers that the words are; `None` where they are not `N` words, or one of them is no whole number
/// below 2^32.
pub fn read_numbers<const N: usize>(words: &[&str]) -> Option<[u32; N]>
    ensures { Tells (Numbers N) (texts words.now) result }
{
    if words.len() != N {
        return None;
    }
    // By place, since a proof knows nothing of what is written through `iter_mut().zip(..)`.
    let mut numbers = [0; N];
    for (i, word) in words.iter().enumerate() {
        numbers[i] = read_whole(word)?;
    }
    Some(numbers)
}

/// The whole numbers that the words are; `None` where one of them is no whole number below 2^32.
pub fn read_list(heap: Global, words: &[&str]) -> Result<Option<Vec<u32>>, AllocError>
    ensures { IfOk result (λ o. Tells (λ ws v. Wholes ws v.items) (texts words.now) o) }
{
    // No chain that collects, since it would have one failure for two: a word that is no number, and want of memory.
    let mut numbers = Vec::new(heap);
    for word in words {
        let Some(number) = read_whole(word) else {
            return Ok(None);
        };
        numbers.push(number)?;
    }
    Ok(Some(numbers))
}
