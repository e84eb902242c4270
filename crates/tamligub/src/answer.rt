//! The answer of a call that puts a text.
ghost use Rattle.std.specs.Prelude.{ℕ, List};
ghost use Rattle.cept_live.specs.Written.{Writes};
ghost use Rattle.tamligub.specs.Decoders.{AnswersText};

use cept_codes::NoMemory;

/// Answers 0 where a text was put, and puts the number of its bytes in `put`; 5 where there was no room
/// for it, and 6 where there was no memory, and puts 0.
pub(crate) fn answer_of(written: Result<Option<usize>, NoMemory>, put: &mut u64) -> u32
    ensures { (text old new : List ℕ) → Writes text old written new
        → AnswersText text old new put.new result }
{
    let (count, answer) = match written {
        Ok(Some(count)) => (count, 0),
        Ok(None) => (0, 5),
        Err(NoMemory) => (0, 6),
    };
    *put = count as u64;
    answer
}
