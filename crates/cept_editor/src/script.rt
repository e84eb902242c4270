ghost use Rattle.std.specs.Prelude.{◌≡◌, ◌≤◌, ◌<◌, ◌^◌, ℕ, List, [], length, IfOk, OnOk, IfErr, None, ◌==◌};
ghost use Rattle.std.specs.Prelude.{slice_index_or};
ghost use Rattle.cept_editor.specs.Fault.{SaysFault};
ghost use Rattle.cept_editor.specs.Meaning.{line_meaning, IsValidStep, HasCommand};
ghost use Rattle.cept_editor.specs.inside.Places.{EndsAt, HasKept, IsUnkept, HasOrders};
ghost use Rattle.cept_editor.specs.Edit.{edit_step};
ghost use Rattle.cept_editor.specs.Script.{EditLine, edits, first_fault, AreValidEdits};

use crate::commands::Edit;
use crate::line::line_order;
use crate::places::OrderLine;
use cept_codes::LineReason;
use cept_words::{LINE_END, first_line};
use std::alloc::{AllocError, AllocFailed};
use std::marker::Model;

/// Why a script isn't read.
#[derive(Clone, Copy, Debug, PartialEq, Eq)]
pub enum ScriptFault {
    /// The line of this number, counted from 1, is the first that is outside the grammar, for this
    /// reason.
    BadLine(u32, LineReason),
    /// Out of memory.
    NoMemory,
}

impl From<AllocError> for ScriptFault {
    ghost use Rattle.cept_editor.specs.declared.script.ScriptFault.TheVariants.{NoMemory};

    ghost from_gives = { λ _ fault. fault ≡ NoMemory };

    fn from(_error: AllocError) -> ScriptFault {
        ScriptFault::NoMemory
    }
}

impl<T: Drop> From<AllocFailed<T>> for ScriptFault {
    ghost use Rattle.cept_editor.specs.declared.script.ScriptFault.TheVariants.{NoMemory};

    ghost from_gives = { λ _ fault. fault ≡ NoMemory };

    fn from(_error: AllocFailed<T>) -> ScriptFault {
        ScriptFault::NoMemory
    }
}

/// How many lines may be edits.
fn count_edits(bytes: &[u8]) -> usize
    ensures { result ≤ length bytes.now }
{
    let mut count = 0;
    let mut begins = true;
    for byte in bytes {
        if begins && *byte != LINE_END && *byte != b'#' {
            count += 1;
        }
        begins = *byte == LINE_END;
    }
    count
}

/// Keeps the order of the line of this number, which ends there in a script, where it is an edit.
fn keep_line(
    orders: &mut Vec<OrderLine>,
    line: &[u8],
    number: u32,
    end: u32,
) -> Result<(), ScriptFault>
    requires few { length line.now ≤ 2 ^ 20 }
    requires within { length line.now ≤ end }
    ensures kept { OnOk result ((script : List ℕ) → EndsAt script end line.now
        → HasKept script number (line_meaning line.now) orders.old.items orders.new.items) }
    ensures fault { IfErr result (λ fault. (script : List ℕ) → EndsAt script end line.now
        → IsUnkept (line_meaning line.now) number fault) }
{
    match line_order(line, end) {
        Ok(None) => Ok(()),
        Ok(Some(order)) => {
            orders.push(OrderLine {
                line: number,
                order,
            })?;
            Ok(())
        }
        Err(reason) => Err(ScriptFault::BadLine(number, reason)),
    }
}

/// Keeps the orders of all edits.
fn keep_lines(orders: &mut Vec<OrderLine>, bytes: &[u8]) -> Result<(), ScriptFault>
    requires none { orders.old.items ≡ [] }
    requires few { length bytes.now ≤ 2 ^ 20 }
    ensures orders { OnOk result (HasOrders bytes.now orders.new.items) }
    ensures fault { IfErr result (λ fault. SaysFault (first_fault bytes.now) fault) }
{
    let mut number = 0u32;
    let mut left = bytes;
    while !left.is_empty() {
        let start = bytes.len() - left.len();
        let (line, rest) = first_line(left);
        number += 1;
        keep_line(orders, line, number, (start + line.len()) as u32)?;
        left = rest;
    }
    Ok(())
}

/// A script: its edits in order, each with the number of its line.
#[derive(Drop)]
pub struct Script {
    text: Vec<u8>,
    orders: Vec<OrderLine>,
}

impl Model for Script {
    ghost use Rattle.std.specs.Prelude.{List, map};
    ghost use Rattle.cept_editor.specs.Places.{edit_at, ArePlacedLines};
    ghost use Rattle.cept_editor.specs.Script.{EditLine};

    ghost Value = { List EditLine };

    ghost view = { λ s. map (edit_at s.text.items) s.orders.items };

    ghost invariant = { λ s. ArePlacedLines s.text.items s.orders.items };
}

impl Script {
    /// Reads a script of at most 2^20 bytes.
    ///
    /// # Errors
    ///
    /// `BadLine` with the first line outside the grammar and the first reason that holds of it, and
    /// `NoMemory` where memory runs out.
    pub fn read(bytes: Vec<u8>) -> Result<Script, ScriptFault>
        requires { length bytes.items ≤ 2 ^ 20 }
        ensures edits { IfOk result (λ script. script ≡ edits bytes.items) }
        ensures valid { OnOk result (AreValidEdits (edits bytes.items)) }
        ensures good { OnOk result (first_fault bytes.items ≡ None) }
        ensures fault { IfErr result (λ fault. SaysFault (first_fault bytes.items) fault) }
    {
        let mut orders = Vec::with_capacity(*bytes.allocator(), count_edits(bytes.as_slice()))?;
        keep_lines(&mut orders, bytes.as_slice())?;
        Ok(Script {
            text: bytes,
            orders,
        })
    }

    /// How many edits there are.
    pub fn len(&self) -> u32
        ensures { result ≡ length self.now }
    {
        self.orders.len() as u32
    }

    /// Whether there is no edit.
    pub fn is_empty(&self) -> bool
        ensures { result ≡ (length self.now == 0) }
    {
        self.orders.is_empty()
    }

    /// The number of the line of an edit, counted from 1. Edits are counted from 0.
    pub fn line_of(&self, k: u32) -> u32
        requires { k < length self.now }
        ensures { (default : EditLine) → result ≡ (slice_index_or self.now k default).line }
    {
        self.orders[k as usize].line
    }

    /// What an edit does: its commands one after the other, undo or redo. Edits are counted from 0.
    pub fn edit(&self, k: u32) -> Edit<'_>
        requires { k < length self.now }
        ensures step { (default : EditLine) → edit_step result
            ≡ (slice_index_or self.now k default).step }
        ensures valid { IsValidStep (edit_step result) }
        ensures some { HasCommand (edit_step result) }
    {
        Edit::of(self.orders[k as usize].order, self.text.as_slice())
    }
}
