//! From a text to a script.
ghost use Rattle.std.specs.Prelude.{◌≡◌, IfOk, MatchResult, Ok, Err};
ghost use Rattle.script.specs.Reading.{Reading, ReadsLine, ReadsLines};
ghost use Rattle.script.specs.declared.reading.Unread.TheVariants.{Memory, Rule};

use super::language::Language;
use super::line::Line;
use super::order::{BadLine, bad_lines, calls_of};
use notation::words::cut_words;
use std::alloc::{AllocError, Global};

/// A script: its rule, and its calls in order.
#[derive(Drop)]
pub struct Script<R, C> {
    pub rule: R,
    pub calls: Vec<C>,
}

/// Why there is no script.
#[derive(Debug, Drop)]
pub enum Unread<N> {
    /// Want of memory.
    Memory,
    /// These lines are bad.
    Bad(Vec<BadLine>),
    /// The lines set up no rule.
    Rule(N),
}

impl<N> From<AllocError> for Unread<N> {
    ghost from_gives = { λ _ r. r ≡ Memory };

    fn from(_e: AllocError) -> Unread<N> {
        Unread::Memory
    }
}

/// What the line means; `None` where it means nothing.
fn read_line<L: Language>(
    heap: Global,
    line: &str,
) -> Result<Option<Line<L::Setup, L::Call>>, AllocError>
    ensures { IfOk result (ReadsLine L.means line.now) }
{
    let words = cut_words(heap, line)?;
    L::read_line(heap, words.as_slice())
}

/// What each line of the text means, or `None` where it means nothing.
pub fn read_lines<L: Language>(
    heap: Global,
    text: &str,
) -> Result<Vec<Option<Line<L::Setup, L::Call>>>, AllocError>
    ensures { IfOk result (λ v. ReadsLines L.means text.now v.items) }
{
    text.lines()
        .map(|line| read_line::<L>(heap, line))
        .try_collect(heap)
}

/// The rule that the lines set up, or why there is no script.
fn settle_rule<L: Language>(
    lines: &[Option<Line<L::Setup, L::Call>>],
) -> Result<L::Rule, Unread<L::NoRule>>
    ensures { MatchResult result (λ r. L.makes lines.now (Ok r)) (λ e. (n : L.NoRule) × (e ≡ Rule n) × L.makes lines.now (Err n)) }
{
    L::rule_of(lines).map_err(Unread::Rule)
}

/// The script that the text is. Refused where a line is bad, with all that are, and else where there is no such rule.
pub fn read_script<L: Language>(
    heap: Global,
    text: &str,
) -> Result<Script<L::Rule, L::Call>, Unread<L::NoRule>>
    ensures { Reading L.Setup.same L.means L.makes text.now result }
{
    let lines = read_lines::<L>(heap, text)?;
    let bad = bad_lines(heap, lines.as_slice())?;
    if !bad.is_empty() {
        return Err(Unread::Bad(bad));
    }
    let rule = settle_rule::<L>(lines.as_slice())?;
    let calls = calls_of(heap, lines)?;
    Ok(Script { rule, calls })
}
