ghost use Rattle.std.specs.Prelude.{◌≡◌, ℕ, Bool};
ghost use Rattle.cept_codes.specs.declared.command.Command.{Command};
ghost use Rattle.cept_parser.specs.Bytes.{is_between};
ghost use Rattle.cept_words.specs.Words.{words_after};
ghost use Rattle.cept_editor.specs.Meaning.{one, two, four, ranged};
ghost use Rattle.cept_editor.specs.inside.Order.{decided};

use cept_codes::LineReason;
use cept_words::{four_words, number, one_word, two_words};

/// Whether a number is in a range.
pub(crate) fn is_between(low: u8, high: u8, number: u8) -> bool
    ensures { result ≡ is_between low high number }
{
    low <= number && number <= high
}

/// The one number that stands after a word.
pub(crate) fn one_number(rest: Option<&[u8]>) -> Result<u8, LineReason>
    ensures { (fits : ℕ → Bool) (command : ℕ → Command)
        → one fits command (words_after rest.entry)
        ≡ decided result (λ a. ranged (fits a) (command a)) }
{
    let Some(word) = one_word(rest) else {
        return Err(LineReason::WrongCount);
    };
    number(word).ok_or(LineReason::BadNumber)
}

/// The two numbers that stand after a word.
pub(crate) fn two_numbers(rest: Option<&[u8]>) -> Result<(u8, u8), LineReason>
    ensures { (fits : ℕ → ℕ → Bool) (command : ℕ → ℕ → Command)
        → two fits command (words_after rest.entry)
        ≡ decided result (λ n. ranged (fits n.0 n.1) (command n.0 n.1)) }
{
    let Some((first, second)) = two_words(rest) else {
        return Err(LineReason::WrongCount);
    };
    match (number(first), number(second)) {
        (Some(first), Some(second)) => Ok((first, second)),
        _ => Err(LineReason::BadNumber),
    }
}

/// The four numbers that stand after a word.
pub(crate) fn four_numbers(rest: Option<&[u8]>) -> Result<(u8, u8, u8, u8), LineReason>
    ensures { (fits : ℕ → ℕ → ℕ → ℕ → Bool) (command : ℕ → ℕ → ℕ → ℕ → Command)
        → four fits command (words_after rest.entry)
        ≡ decided result (λ n. ranged (fits n.0 n.1 n.2 n.3) (command n.0 n.1 n.2 n.3)) }
{
    let Some((first, second, third, fourth)) = four_words(rest) else {
        return Err(LineReason::WrongCount);
    };
    match (number(first), number(second), number(third), number(fourth)) {
        (Some(first), Some(second), Some(third), Some(fourth)) => {
            Ok((first, second, third, fourth))
        }
        _ => Err(LineReason::BadNumber),
    }
}
