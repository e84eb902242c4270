ghost use Rattle.std.specs.Prelude.{◌≡◌, false, length};
ghost use Rattle.cept_profile.specs.Look.{is_double_set, sets_double_size};
ghost use Rattle.cept_profile.specs.Serial.{is_marker};
ghost use Rattle.cept_profile.specs.OldValues.{OldValues, page_unwound};
ghost use Rattle.cept_profile.specs.State.{Page};
ghost use Rattle.cept_delta.specs.Exchanged.{HasSameLocations};
ghost use Rattle.cept_page.specs.inside.FlagsAnew.{IsFlagMade, IsSingle, IsSingleRowAnew, IsUnmarkedRow, RowHasNone};
ghost use Rattle.cept_page.specs.MarkedRows.{IsKeptPage};

use crate::row_flags::{is_double, is_marker, sets_double_size};
use cept_cells::Grid;
use cept_codes::{Cell, Pen, Row};
use cept_delta::Delta;

/// Makes the flags of all rows anew of which old values were put back. The delta notes the same
/// locations as these.
pub(crate) fn flag_unwound(
    delta: &Delta,
    grid: &Grid,
    row_pens: &[Pen; 24],
    marked: &mut [bool; 24],
    sized: &mut [bool; 24],
)
    requires rows { length row_pens.now ≡ 24 }
    requires marked_rows { length marked.old ≡ 24 }
    requires sized_rows { length sized.old ≡ 24 }
    ensures { (p q : Page) (old : OldValues) → HasSameLocations old delta.now
        → IsKeptPage p marked.old sized.old → q ≡ page_unwound p old
        → q.cells ≡ grid.now → q.row_pens ≡ row_pens.now → IsKeptPage q marked.new sized.new }
{
    for number in 1..25u8 {
        flag_row_unwound(Row::numbered(number), delta, grid, row_pens, marked, sized);
    }
}

/// Makes the flags of a row anew, where old values of it were put back.
fn flag_row_unwound(
    row: Row,
    delta: &Delta,
    grid: &Grid,
    row_pens: &[Pen; 24],
    marked: &mut [bool; 24],
    sized: &mut [bool; 24],
)
    requires rows { length row_pens.now ≡ 24 }
    requires marked_rows { length marked.old ≡ 24 }
    requires sized_rows { length sized.old ≡ 24 }
    ensures marked { IsFlagMade (IsUnmarkedRow grid.now delta.now marked.old row) row marked.old marked.new }
    ensures sized { IsFlagMade (IsSingleRowAnew grid.now row_pens.now delta.now sized.old row) row
        sized.old sized.new }
{
    if delta.notes_row(row.number()) {
        flag_anew(
            row,
            grid.cells(row.number()),
            &row_pens[row.index()],
            marked,
            sized,
        );
    }
}

/// Makes the flags of a row anew, by its cells and its attributes.
fn flag_anew(
    row: Row,
    cells: &[Cell; 40],
    pen: &Pen,
    marked: &mut [bool; 24],
    sized: &mut [bool; 24],
)
    requires columns { length cells.now ≡ 40 }
    requires marked_rows { length marked.old ≡ 24 }
    requires sized_rows { length sized.old ≡ 24 }
    ensures marked { IsFlagMade (RowHasNone is_marker cells.now) row marked.old marked.new }
    ensures sized { IsFlagMade (IsSingle cells.now pen.now) row sized.old sized.new }
{
    let marker = has_marker(cells);
    let double = has_double(cells) || gives_double(pen);
    set_flag(row, marker, marked);
    set_flag(row, double, sized);
}

/// Sets or unsets the flag of a row.
fn set_flag(row: Row, flag: bool, rows: &mut [bool; 24])
    requires rows { length rows.old ≡ 24 }
    ensures made { IsFlagMade (flag ≡ false) row rows.old rows.new }
{
    rows[row.index()] = flag;
}

/// Whether a marker stands in one of the cells.
fn has_marker(cells: &[Cell; 40]) -> bool
    requires { length cells.now ≡ 40 }
    ensures { result ≡ false → RowHasNone is_marker cells.now }
{
    for i in 0..40usize {
        if is_marker(&cells[i].what) {
            return true;
        }
    }
    false
}

/// Whether one of the cells sets a double size.
fn has_double(cells: &[Cell; 40]) -> bool
    requires { length cells.now ≡ 40 }
    ensures { result ≡ false → RowHasNone sets_double_size cells.now }
{
    for i in 0..40usize {
        if sets_double_size(&cells[i].what) {
            return true;
        }
    }
    false
}

/// Whether these attributes of a row set a double size.
fn gives_double(pen: &Pen) -> bool
    ensures { result ≡ is_double_set pen.now.size }
{
    match pen.size {
        Some(size) => is_double(size),
        None => false,
    }
}
