ghost use Rattle.std.specs.Prelude.{◌≡◌, ◌≤◌, ◌==◌, ◌&&◌, ◌||◌, ℕ, true, false, length};
ghost use Rattle.cept_codes.specs.Stroke.{IsValidStroke};
ghost use Rattle.cept_codes.specs.Command.{IsArea};
ghost use Rattle.cept_codes.specs.Table.{entry, list_by_index};
ghost use Rattle.cept_profile.specs.Look.{is_double, sets_double_size};
ghost use Rattle.cept_profile.specs.Serial.{is_marker, row_in};
ghost use Rattle.cept_page.specs.inside.MarkedRows.{AreFlagsAfter, IsUnflagged, gives_size};

use crate::shifting::shifted_rows;
use cept_codes::{Attr, Cell, Column, Marker, Pos, Row, Size, Stroke, Up, What};

/// Flags the row of a cell that is put, one flag where it is a marker and one where it sets a
/// double size, and the row of an attribute of a double size. Unflags all rows where all is wiped,
/// and moves flags with the cells of an area that is shifted or carried.
pub(crate) fn flag_rows(stroke: &Stroke, marked: &mut [bool; 24], sized: &mut [bool; 24])
    requires valid { IsValidStroke stroke.now }
    requires marked_rows { length marked.old ≡ 24 }
    requires sized_rows { length sized.old ≡ 24 }
    ensures { AreFlagsAfter stroke.now marked.old sized.old marked.new sized.new }
{
    match stroke {
        Stroke::Put(place, cell) => flag_put(*place, cell, marked, sized),
        Stroke::RowAttr(row, attr) => flag_row(Row::numbered(*row), gives_size(attr), sized),
        Stroke::Wipe => {
            *marked = [false; 24];
            *sized = [false; 24];
        }
        Stroke::Shift(first, last, way) | Stroke::Carry(first, last, way) => {
            flag_shift(*first, *last, *way, marked, sized);
        }
        // These put no cell and give no row a size.
        Stroke::Erase(_, _)
        | Stroke::ScreenAttr(_)
        | Stroke::ScreenClear
        | Stroke::Colour(_, _)
        | Stroke::Dclut(_, _)
        | Stroke::ColourDefaults
        | Stroke::DrcsClear
        | Stroke::Drcs(_, _)
        | Stroke::Format(_) => {}
    }
}

/// Flags the row of a cell that is put, where it is a marker and where it sets a double size.
pub(crate) fn flag_put(place: Pos, cell: &Cell, marked: &mut [bool; 24], sized: &mut [bool; 24])
    requires marked_rows { length marked.old ≡ 24 }
    requires sized_rows { length sized.old ≡ 24 }
    ensures { AreFlagsAfter (Stroke.Put place cell.now) marked.old sized.old marked.new sized.new }
{
    flag_row(place.in_row(), is_marker(&cell.what), marked);
    flag_row(place.in_row(), sets_double_size(&cell.what), sized);
}

/// Moves the flags of the rows of an area that goes one up or down with its cells. Flags of sizes
/// stay besides, since the attributes of rows may stay.
fn flag_shift(first: u8, last: u8, way: Up, marked: &mut [bool; 24], sized: &mut [bool; 24])
    requires area { IsArea first last }
    requires marked_rows { length marked.old ≡ 24 }
    requires sized_rows { length sized.old ≡ 24 }
    ensures { AreFlagsAfter (Stroke.Shift first last way) marked.old sized.old marked.new sized.new }
{
    *marked = shifted_rows(first, last, way, false, marked);
    let moved = shifted_rows(first, last, way, false, sized);
    *sized = either_flags(sized, &moved);
}

/// The flags of the rows that are flagged in one or the other.
fn either_flags(some: &[bool; 24], others: &[bool; 24]) -> [bool; 24]
    requires some { length some.now ≡ 24 }
    requires others { length others.now ≡ 24 }
    ensures { result ≡ list_by_index 1 24 (λ r. entry false 1 some.now r || entry false 1 others.now r) }
{
    let mut rows = [false; 24];
    for row in 0..24usize {
        rows[row] = some[row] || others[row];
    }
    rows
}

/// Whether no flag of the row is set, and the flag of sizes of the row above isn't.
pub(crate) fn is_unflagged(row: Row, marked: &[bool; 24], sized: &[bool; 24]) -> bool
    requires marked_rows { length marked.now ≡ 24 }
    requires sized_rows { length sized.now ≡ 24 }
    ensures { result ≡ true → IsUnflagged marked.now sized.now row }
{
    let index = row.index();
    !marked[index] && !sized[index] && (index == 0 || !sized[index - 1])
}

/// Flags a row, where this is so.
fn flag_row(row: Row, so: bool, rows: &mut [bool; 24])
    requires flags { length rows.old ≡ 24 }
    ensures flags { length rows.new ≡ 24 }
    ensures rows { (r : ℕ) → 1 ≤ r → r ≤ 24
        → entry false 1 rows.new r ≡ (entry false 1 rows.old r || (row == r && so)) }
{
    if so {
        rows[row.index()] = true;
    }
}

/// Whether a marker stands there.
pub(crate) fn is_marker(what: &What) -> bool
    ensures { result ≡ is_marker what.now }
{
    match what {
        What::Marker(_) => true,
        What::Blank | What::Serial(_) | What::Parallel(_, _) => false,
    }
}

/// Whether a marker stands in one of the cells of a row from a column on.
pub(crate) fn has_marker_from(cells: &[Cell; 40], column: Column) -> bool
    requires columns { length cells.now ≡ 40 }
    ensures { result ≡ false → (c : ℕ) → column ≤ c → c ≤ 40
        → is_marker (row_in cells.now c) ≡ false }
{
    for c in column.number()..41 {
        if is_marker(&cells[usize::from(c) - 1].what) {
            return true;
        }
    }
    false
}

/// Whether what stands there sets a double size.
pub(crate) fn sets_double_size(what: &What) -> bool
    ensures { result ≡ sets_double_size what.now }
{
    match what {
        What::Parallel(_, pen) => match pen.size {
            Some(size) => is_double(size),
            None => false,
        },
        What::Marker(Marker::Size(size)) => is_double(*size),
        What::Blank | What::Serial(_) | What::Marker(_) => false,
    }
}

/// Whether an attribute sets a double size.
fn gives_size(attr: &Attr) -> bool
    ensures { result ≡ gives_size attr.now }
{
    match attr {
        Attr::Size(size) => is_double(*size),
        _ => false,
    }
}

/// A size other than the single one.
pub(crate) fn is_double(size: Size) -> bool
    ensures { result ≡ is_double size }
{
    match size {
        Size::Normal => false,
        Size::High | Size::Wide | Size::Both => true,
    }
}
