ghost use Rattle.std.specs.Prelude.{◌≡◌, ◌<◌, ◌^◌, ℕ, List, IfOk, IfSome, length};
ghost use Rattle.cept_words.specs.Lines.{words};
ghost use Rattle.cept_editor.specs.Edit.{edit_step, meaning_read};
ghost use Rattle.cept_editor.specs.Meaning.{line_meaning, step_of_words, HasCommand, IsValidStep};
ghost use Rattle.cept_editor.specs.inside.Order.{StandsBefore};
ghost use Rattle.cept_editor.specs.Places.{IsPlacedOrder};
ghost use Rattle.cept_editor.specs.inside.Places.{EndsAt, placed_step, placed_line};

use crate::commands::Edit;
use crate::order::Order;
use crate::table::order_of;
use cept_codes::LineReason;
use cept_words::first_word;

/// What the words of a line ask for, which ends there in a script.
fn words_order(line: &[u8], end: u32) -> Result<Order, LineReason>
    requires { StandsBefore end line.now }
    ensures meant { (script : List ℕ) → EndsAt script end line.now
        → placed_step script result ≡ step_of_words (words line.now) line.now }
    ensures sound { (script : List ℕ) → EndsAt script end line.now
        → IfOk result (IsPlacedOrder script) }
{
    let (word, rest) = first_word(line);
    order_of(word, rest, end)
}

/// What a line asks for, which ends there in a script: nothing where it is empty or begins with
/// 2/3.
#[tactic(auto, unfolding(crate::specs::Meaning::line_meaning))]
pub(crate) fn line_order(line: &[u8], end: u32) -> Result<Option<Order>, LineReason>
    requires { StandsBefore end line.now }
    ensures meant { (script : List ℕ) → EndsAt script end line.now
        → placed_line script result ≡ line_meaning line.now }
    ensures sound { (script : List ℕ) → EndsAt script end line.now
        → IfOk result (λ order. IfSome order (IsPlacedOrder script)) }
{
    if line.is_empty() || line[0] == b'#' {
        return Ok(None);
    }
    match words_order(line, end) {
        Ok(order) => Ok(Some(order)),
        Err(reason) => Err(reason),
    }
}

/// Reads a line of a script, without its end: its edit, none where it is empty or begins with 2/3.
/// Takes no memory.
///
/// # Errors
///
/// The first reason for which the line is outside the grammar.
pub fn read_line(line: &[u8]) -> Result<Option<Edit<'_>>, LineReason>
    requires { length line.now < 2 ^ 31 }
    ensures meaning { meaning_read result ≡ line_meaning line.now }
    ensures valid { IfOk result (λ edit. IfSome edit (λ e. IsValidStep (edit_step e))) }
    ensures some { IfOk result (λ edit. IfSome edit (λ e. HasCommand (edit_step e))) }
{
    match line_order(line, line.len() as u32) {
        Ok(None) => Ok(None),
        Ok(Some(order)) => Ok(Some(Edit::of(order, line))),
        Err(reason) => Err(reason),
    }
}
