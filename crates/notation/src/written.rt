//! Values as they are written in a script: words, one for each part.
ghost use Rattle.std.specs.Prelude.{◌≡◌, ℕ, List, Result};
ghost use Rattle.notation.specs.Words.{Tells, texts};
ghost use Rattle.notation.specs.Written.{BaselineWords, NoticeWords};
ghost use Rattle.values.specs.declared.fault.ValueFault.{ValueFault};
ghost use Rattle.notation.specs.Meanings.{baseline_one, notice_one};

use super::words::read_numbers;
use numbers::tenths::Tenths;
use numbers::whole::read_whole;
use values::baseline::Baseline;
use values::fault::ValueFault;
use values::notice::Notice;
use values::value::Value;

/// A kind of value that can be written in a script. `written` tells which words write what: a value, or, where a
/// part is out of range, the refusal.
pub trait Written: Value {
    ghost written: { List (List ℕ) → Result Self ValueFault → Type 0 };

    /// What the words write; `None` where they are no value of this kind. A part out of range is written, and refused: so
    /// there are two ways to fail, and a line is bad only by the first.
    fn read(words: &[&str]) -> Option<Result<Self, ValueFault>>
        ensures { Tells written (texts words.now) result };

    /// Words write one thing at most.
    ghost one_meaning: { (ws : List (List ℕ)) (a b : Result Self ValueFault) → written ws a → written ws b → a ≡ b };
}

impl Written for Baseline {
    ghost written = { BaselineWords };

    ghost one_meaning = { baseline_one };

    fn read(words: &[&str]) -> Option<Result<Baseline, ValueFault>> {
        let [x, y, z, day] = words else {
            return None;
        };
        let x: Tenths = x.parse().ok()?;
        let y: Tenths = y.parse().ok()?;
        let z: Tenths = z.parse().ok()?;
        let day = read_whole(day)?;
        Some(Baseline::new(x, y, z, day))
    }
}

impl Written for Notice {
    ghost written = { NoticeWords };

    ghost one_meaning = { notice_one };

    fn read(words: &[&str]) -> Option<Result<Notice, ValueFault>> {
        let (name, rest) = words.split_first()?;
        match *name {
            "none" => {
                let [] = read_numbers::<0>(rest)?;
                Some(Ok(Notice::NoneInService))
            }
            "in-service" => {
                let [serial, day] = read_numbers::<2>(rest)?;
                Some(Notice::in_service(serial, day))
            }
            "withdrawn" => {
                let [serial, day, reason] = read_numbers::<3>(rest)?;
                Some(Notice::withdrawn(serial, day, reason))
            }
            _ => None,
        }
    }
}
