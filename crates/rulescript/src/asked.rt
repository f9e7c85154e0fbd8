//! What a line asks for after its first word.
ghost use Rattle.families.specs.Meaning.{quorum_name};
ghost use Rattle.families.specs.declared.Quorum.{Quorum};
ghost use Rattle.rulescript.specs.Lines.{AsksRule, AwayWords, ChooseWords};
ghost use Rattle.notation.specs.Words.{Tells, Wholes, texts};
ghost use Rattle.std.specs.Prelude.{◌≡◌, [], ◌∷◌, IfOk, MatchOption, ◌≢◌};

use anyrule::RuleForm;
use families::Quorum;
use notation::words::{read_list, read_numbers};
use numbers::whole::read_whole;
use std::alloc::{AllocError, Global};

/// The rule that the words ask for.
pub(crate) fn read_rule(heap: Global, words: &[&str]) -> Result<Option<RuleForm>, AllocError>
    ensures { IfOk result (λ o. Tells AsksRule (texts words.now) o) }
{
    let Some((name, rest)) = words.split_first() else {
        return Ok(None);
    };
    match *name {
        "tree" => Ok(read_shape(rest).map(|(degree, height)| RuleForm::Tree { degree, height })),
        "levels" => Ok(read_shape(rest).map(|(degree, height)| RuleForm::Levels {
            degree,
            height,
        })),
        "votes" => Ok(read_votes(heap, rest)?.map(|(threshold, votes)| RuleForm::Votes {
            threshold,
            votes,
        })),
        _ => Ok(None),
    }
}

/// The degree and the height that the words write.
fn read_shape(words: &[&str]) -> Option<(u32, u32)>
    ensures { Tells (λ ws p. Wholes ws (p.0 ∷ (p.1 ∷ []))) (texts words.now) result }
{
    let [degree, height] = read_numbers::<2>(words)?;
    Some((degree, height))
}

/// The threshold and the votes that the words write.
fn read_votes(heap: Global, words: &[&str]) -> Result<Option<(u32, Vec<u32>)>, AllocError>
    ensures { IfOk result (λ o. Tells (λ ws p. Wholes ws (p.0 ∷ p.1.items)) (texts words.now) o) }
{
    let Some((first, rest)) = words.split_first() else {
        return Ok(None);
    };
    let Some(threshold) = read_whole(first) else {
        return Ok(None);
    };
    Ok(read_list(heap, rest)?.map(|votes| (threshold, votes)))
}

/// The copies that the words say are away.
fn read_away(heap: Global, words: &[&str]) -> Result<Option<Vec<u32>>, AllocError>
    ensures { IfOk result (λ o. Tells (λ ws v. AwayWords ws v.items) (texts words.now) o) }
{
    let Some((name, rest)) = words.split_first() else {
        return Ok(Some(Vec::new(heap)));
    };
    if rest.is_empty() {
        return Ok(None);
    }
    match *name {
        "away" => read_list(heap, rest),
        _ => Ok(None),
    }
}

/// The sort of quorum to choose, and the copies that are away.
pub(crate) fn read_choose(
    heap: Global,
    words: &[&str],
) -> Result<Option<(Quorum, Vec<u32>)>, AllocError>
    ensures { IfOk result (λ o. Tells (λ ws p. ChooseWords ws p.0 p.1.items) (texts words.now) o) }
{
    let Some((name, rest)) = words.split_first() else {
        return Ok(None);
    };
    let Ok(quorum) = name.parse::<Quorum>() else {
        return Ok(None);
    };
    Ok(read_away(heap, rest)?.map(|away| (quorum, away)))
}
