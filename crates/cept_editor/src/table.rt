//! The words with which lines begin: what each asks for.
ghost use Rattle.cept_words.specs.Words.{words_after, bytes_after};
ghost use Rattle.cept_editor.specs.Meaning.{step_by};
ghost use Rattle.cept_editor.specs.inside.Order.{ReadsPlaced, StandsBefore};
ghost use Rattle.cept_editor.specs.Table.{row_of};

use crate::brief::Brief;
use crate::numbered::{
    area, c1, colour, full_row, full_screen, no_area, place, repeat, revision, table,
};
use crate::order::{Order, one, raw, text, undo_redo};
use crate::undo_redo::UndoRedo;
use cept_codes::{C1Set, LineReason};

/// What a word asks for, with what stands after it, which ends there in a script.
#[tactic(auto, using(crate::proofs::PlacedOrders::plain_sound), unfolding(crate::specs::Table::row_of))]
pub(crate) fn order_of(word: &[u8], rest: Option<&[u8]>, end: u32) -> Result<Order, LineReason>
    requires { StandsBefore end (bytes_after rest) }
    ensures { ReadsPlaced end (bytes_after rest.entry) result
        (step_by (row_of word.now) (words_after rest.entry) (bytes_after rest.entry)) }
{
    if word == b"at".as_slice() {
        place(rest)
    } else if word == b"text".as_slice() {
        text(rest, end)
    } else if word == b"serial".as_slice() {
        one(Brief::DesignateC1(C1Set::Serial), rest)
    } else if word == b"parallel".as_slice() {
        one(Brief::DesignateC1(C1Set::Parallel), rest)
    } else if word == b"c1".as_slice() {
        c1(rest)
    } else if word == b"row".as_slice() {
        full_row(rest)
    } else if word == b"screen".as_slice() {
        full_screen(rest)
    } else if word == b"table".as_slice() {
        table(rest)
    } else if word == b"colour".as_slice() {
        colour(rest)
    } else if word == b"repeat".as_slice() {
        repeat(rest)
    } else if word == b"erase".as_slice() {
        one(Brief::Cancel, rest)
    } else if word == b"clear".as_slice() {
        one(Brief::Clear, rest)
    } else if word == b"home".as_slice() {
        one(Brief::Home, rest)
    } else if word == b"return".as_slice() {
        one(Brief::Return, rest)
    } else if word == b"back".as_slice() {
        one(Brief::Back, rest)
    } else if word == b"forward".as_slice() {
        one(Brief::Forward, rest)
    } else if word == b"down".as_slice() {
        one(Brief::Down, rest)
    } else if word == b"up".as_slice() {
        one(Brief::Up, rest)
    } else if word == b"protect".as_slice() {
        one(Brief::Protect(true), rest)
    } else if word == b"unprotect".as_slice() {
        one(Brief::Protect(false), rest)
    } else if word == b"area".as_slice() {
        area(rest)
    } else if word == b"noarea".as_slice() {
        no_area(rest)
    } else if word == b"scrollup".as_slice() {
        one(Brief::ScrollUp, rest)
    } else if word == b"scrolldown".as_slice() {
        one(Brief::ScrollDown, rest)
    } else if word == b"implicit".as_slice() {
        one(Brief::Implicit(true), rest)
    } else if word == b"explicit".as_slice() {
        one(Brief::Implicit(false), rest)
    } else if word == b"revision".as_slice() {
        revision(rest)
    } else if word == b"raw".as_slice() {
        raw(rest, end)
    } else if word == b"undo".as_slice() {
        undo_redo(UndoRedo::Undo, rest)
    } else if word == b"redo".as_slice() {
        undo_redo(UndoRedo::Redo, rest)
    } else {
        Err(LineReason::UnknownWord)
    }
}
