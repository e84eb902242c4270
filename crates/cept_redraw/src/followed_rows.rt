ghost use Rattle.std.specs.Prelude.{◌≡◌, ◌≤◌, ◌<◌, ◌+◌, ◌-◌, ◌==◌, ℕ, true, false, length, Some, []};
ghost use Rattle.std.specs.List.{AllByRecursion, list_any};
ghost use Rattle.cept_codes.specs.Stroke.{IsValidStroke};
ghost use Rattle.cept_codes.specs.Table.{entry, list_by_index};
ghost use Rattle.cept_redraw.specs.inside.Due.{does_more, followed, followed_after, freed, row_from, written_if};
ghost use Rattle.cept_redraw.specs.Resolved.{defines, one_else};

use cept_codes::{Row, Stroke};
use cept_page::shifted_rows;

/// A row after strokes: the row before them of which it came, `None` where it was freed, and
/// whether one of them writes in it.
#[derive(Clone, Copy)]
pub(crate) struct Followed {
    pub(crate) from: Option<Row>,
    pub(crate) written: bool,
}

/// A row that was freed.
const FREED: Followed = Followed {
    from: None,
    written: false,
};

/// Each row from the top, followed back through the strokes.
pub(crate) fn follow_rows(strokes: &[Stroke]) -> [Followed; 24]
    requires { AllByRecursion IsValidStroke strokes.now }
    ensures { result ≡ list_by_index 1 24 (followed strokes.now) }
{
    let mut rows = rows_at_rest();
    for stroke in strokes {
        follow(stroke, &mut rows);
    }
    rows
}

/// Each row from the top, where no stroke was made.
pub(crate) fn rows_at_rest() -> [Followed; 24]
    ensures { result ≡ list_by_index 1 24 (followed []) }
{
    let mut rows = [FREED; 24];
    for i in 0..24u8 {
        rows[usize::from(i)] = Followed {
            from: Some(Row::numbered(i + 1)),
            written: false,
        };
    }
    rows
}

/// Follows the rows through one stroke more.
fn follow(stroke: &Stroke, rows: &mut [Followed; 24])
    requires valid { IsValidStroke stroke.now }
    requires rows { length rows.old ≡ 24 }
    ensures rows { length rows.new ≡ 24 }
    ensures followed { (r : ℕ) → 1 ≤ r → r ≤ 24
        → entry freed 1 rows.new r ≡ followed_after stroke.now (entry freed 1 rows.old) r }
{
    match stroke {
        Stroke::Put(place, _) => write_row(place.in_row(), rows),
        Stroke::Erase(row, _) => write_row(Row::numbered(*row), rows),
        Stroke::Wipe => write_rows(rows),
        Stroke::Shift(first, last, way) | Stroke::Carry(first, last, way) => {
            *rows = shifted_rows(*first, *last, *way, FREED, rows);
        }
        // These write in no row and move none.
        Stroke::RowAttr(_, _)
        | Stroke::ScreenAttr(_)
        | Stroke::ScreenClear
        | Stroke::Colour(_, _)
        | Stroke::Dclut(_, _)
        | Stroke::ColourDefaults
        | Stroke::DrcsClear
        | Stroke::Drcs(_, _)
        | Stroke::Format(_) => {}
    }
}

/// A stroke writes in a row.
fn write_row(row: Row, rows: &mut [Followed; 24])
    requires rows { length rows.old ≡ 24 }
    ensures rows { length rows.new ≡ 24 }
    ensures written { (r : ℕ) → 1 ≤ r → r ≤ 24
        → entry freed 1 rows.new r ≡ written_if (row == r) (entry freed 1 rows.old r) }
{
    rows[row.index()].written = true;
}

/// A stroke writes in all rows.
fn write_rows(rows: &mut [Followed; 24])
    requires rows { length rows.old ≡ 24 }
    ensures rows { length rows.new ≡ 24 }
    ensures written { (r : ℕ) → 1 ≤ r → r ≤ 24
        → entry freed 1 rows.new r ≡ written_if true (entry freed 1 rows.old r) }
{
    for i in 0..24usize {
        rows[i].written = true;
    }
}

/// For each row from the top, whether a stroke writes in it.
pub(crate) fn rows_written(rows: &[Followed; 24]) -> [bool; 24]
    requires { length rows.now ≡ 24 }
    ensures { result ≡ list_by_index 1 24 (λ r. (entry freed 1 rows.now r).written) }
{
    let mut written = [false; 24];
    for i in 0..24usize {
        written[i] = rows[i].written;
    }
    written
}

/// Whether one of the rows came of another.
pub(crate) fn one_moved(rows: &[Followed; 24]) -> bool
    requires rows { length rows.now ≡ 24 }
    ensures { result ≡ false → (r q : ℕ) → 1 ≤ r → r ≤ 24 → row_from rows.now r ≡ Some q → q ≡ r }
{
    for i in 0..24u8 {
        if is_moved(rows[usize::from(i)].from, Row::numbered(i + 1)) {
            return true;
        }
    }
    false
}

/// Whether a row came of another.
fn is_moved(from: Option<Row>, row: Row) -> bool
    ensures { result ≡ false → (q : ℕ) → from ≡ Some q → q ≡ row }
{
    match from {
        Some(from) => from != row,
        None => false,
    }
}

/// Whether one of the strokes may do more than write in one row.
pub(crate) fn one_does_more(strokes: &[Stroke]) -> bool
    ensures { result ≡ list_any does_more strokes.now }
{
    for stroke in strokes {
        if does_more(stroke) {
            return true;
        }
    }
    false
}

/// Whether a stroke may.
fn does_more(stroke: &Stroke) -> bool
    ensures { result ≡ does_more stroke.now }
{
    !matches!(stroke, Stroke::Put(_, _) | Stroke::Erase(_, _))
}

/// Whether one of the strokes defines nothing.
pub(crate) fn one_else(strokes: &[Stroke]) -> bool
    ensures { result ≡ one_else strokes.now }
{
    for stroke in strokes {
        if !defines(stroke) {
            return true;
        }
    }
    false
}

/// Whether one of the strokes sets or clears a colour entry, an entry of the DCLUT or a pattern.
pub(crate) fn one_defines(strokes: &[Stroke]) -> bool
    ensures { result ≡ list_any defines strokes.now }
{
    for stroke in strokes {
        if defines(stroke) {
            return true;
        }
    }
    false
}

/// Whether a stroke does.
fn defines(stroke: &Stroke) -> bool
    ensures { result ≡ defines stroke.now }
{
    match stroke {
        Stroke::Colour(_, _)
        | Stroke::Dclut(_, _)
        | Stroke::ColourDefaults
        | Stroke::Drcs(_, _)
        | Stroke::DrcsClear => true,
        // These define nothing.
        Stroke::Put(_, _)
        | Stroke::Erase(_, _)
        | Stroke::Wipe
        | Stroke::Shift(_, _, _)
        | Stroke::Carry(_, _, _)
        | Stroke::RowAttr(_, _)
        | Stroke::ScreenAttr(_)
        | Stroke::ScreenClear
        | Stroke::Format(_) => false,
    }
}
