ghost use Rattle.std.specs.Prelude.{◌≡◌, ◌∷◌, ℕ, List, [], true, IfOk};
ghost use Rattle.std.specs.List.{list_all};
ghost use Rattle.cept_codes.specs.Command.{IsValidCommand};
ghost use Rattle.cept_parser.specs.Bytes.{is_between};
ghost use Rattle.cept_words.specs.Words.{words_after, bytes_after};
ghost use Rattle.cept_editor.specs.Meaning.{UndoRedo as UndoRedoOf, Edit, ranged, alone};
ghost use Rattle.cept_editor.specs.Meaning.{text, raw, bytes_step, hex_bytes};
ghost use Rattle.cept_editor.specs.Order.{command_of, order_step};
ghost use Rattle.cept_editor.specs.inside.Order.{step_meant, IsPlainOrder};
ghost use Rattle.cept_editor.specs.inside.Order.{ReadsPlaced, ReadsPlain, StandsBefore};

use crate::brief::Brief;
use crate::digits::{are_digits, has_refusal};
use crate::number::is_between;
use crate::places::{Span, place_before};
use crate::undo_redo::UndoRedo;
use cept_codes::LineReason;
use cept_words::{next_word, one_word};

/// What an edit line asks for.
#[derive(Clone, Copy)]
pub(crate) enum Order {
    /// To undo the last kept edit, or to redo the last undone one.
    UndoRedo(UndoRedo),
    /// One command.
    One(Brief),
    /// The commands that write the text that stands there.
    Text(Span),
    /// The commands of the bytes of the hexadecimal digits that stand there.
    Raw(Span),
}

/// One command, where its numbers are in their ranges.
pub(crate) fn ranged(fits: bool, brief: Brief) -> Result<Order, LineReason>
    requires { fits ≡ true → IsValidCommand (command_of brief) }
    ensures meant { (bytes : List ℕ) → step_meant bytes result ≡ ranged fits (command_of brief) }
    ensures plain { IfOk result IsPlainOrder }
{
    if fits {
        Ok(Order::One(brief))
    } else {
        Err(LineReason::BadNumber)
    }
}

/// An order without a word after it.
fn alone(order: Order, rest: Option<&[u8]>) -> Result<Order, LineReason>
    requires { IsPlainOrder order }
    ensures { ReadsPlain (bytes_after rest.entry) result
        (alone (order_step (bytes_after rest.entry) order) (words_after rest.entry)) }
{
    match next_word(rest) {
        None => Ok(order),
        Some(_) => Err(LineReason::WrongCount),
    }
}

/// A command without a word after it.
pub(crate) fn one(brief: Brief, rest: Option<&[u8]>) -> Result<Order, LineReason>
    requires { IsValidCommand (command_of brief) }
    ensures { ReadsPlain (bytes_after rest.entry) result
        (alone (Edit (command_of brief ∷ [])) (words_after rest.entry)) }
{
    alone(Order::One(brief), rest)
}

/// An undo or a redo, without a word after it.
pub(crate) fn undo_redo(which: UndoRedo, rest: Option<&[u8]>) -> Result<Order, LineReason>
    ensures { ReadsPlain (bytes_after rest.entry) result
        (alone (UndoRedoOf which) (words_after rest.entry)) }
{
    alone(Order::UndoRedo(which), rest)
}

/// Whether these are signs of a text: 2/0 to 7/14.
fn are_signs(text: &[u8]) -> bool
    ensures { result ≡ list_all (is_between 0x20 0x7E) text.now }
{
    let mut left = text;
    while let [byte, more @ ..] = left {
        if !is_between(0x20, 0x7E, *byte) {
            return false;
        }
        left = more;
    }
    true
}

/// The text after a word and one space, which ends there in a script.
pub(crate) fn text(rest: Option<&[u8]>, end: u32) -> Result<Order, LineReason>
    requires { StandsBefore end (bytes_after rest) }
    ensures { ReadsPlaced end (bytes_after rest.entry) result (text (bytes_after rest.entry)) }
{
    let Some(text) = rest else {
        return Err(LineReason::WrongCount);
    };
    if text.is_empty() {
        return Err(LineReason::WrongCount);
    }
    if !are_signs(text) {
        return Err(LineReason::BadText);
    }
    Ok(Order::Text(place_before(end, text)))
}

/// The bytes of these hexadecimal digits, which end there in a script.
fn bytes_of(digits: &[u8], end: u32) -> Result<Order, LineReason>
    requires { StandsBefore end digits.now }
    ensures { ReadsPlaced end digits.now result (bytes_step (hex_bytes digits.now)) }
{
    if !are_digits(digits) {
        return Err(LineReason::BadHex);
    }
    if digits.is_empty() {
        return Err(LineReason::BadHex);
    }
    if has_refusal(digits) {
        return Err(LineReason::BadBytes);
    }
    Ok(Order::Raw(place_before(end, digits)))
}

/// The bytes of the one word of hexadecimal digits, which ends there in a script.
pub(crate) fn raw(rest: Option<&[u8]>, end: u32) -> Result<Order, LineReason>
    requires { StandsBefore end (bytes_after rest) }
    ensures { ReadsPlaced end (bytes_after rest.entry) result (raw (words_after rest.entry)) }
{
    let Some(digits) = one_word(rest) else {
        return Err(LineReason::WrongCount);
    };
    bytes_of(digits, end)
}
