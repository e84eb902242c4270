ghost use Rattle.std.specs.Prelude.{◌≡◌, ◌≤◌, ◌<◌, ◌==◌, ℕ, true, IfSome, length, unwrap_or};
ghost use Rattle.cept_codes.specs.declared.cell.Cell.{Cell};
ghost use Rattle.cept_codes.specs.Attribute.{IsEntry};
ghost use Rattle.cept_codes.specs.Look.{IsValidPaint, IsValidPattern};
ghost use Rattle.cept_profile.specs.Cells.{is_at};
ghost use Rattle.cept_profile.specs.OldValues.{old_cell, old_dclut, old_paint, old_pattern, old_row_pen};
ghost use Rattle.cept_profile.specs.OldValues.{page_unwound};
ghost use Rattle.cept_profile.specs.PageParts.{dclut_in, list_of_codes, list_of_colours, list_of_dclut};
ghost use Rattle.cept_profile.specs.PageParts.{list_of_rows, paint_in, pattern_in, row_pen_in};
ghost use Rattle.cept_profile.specs.Valid.{IsValidPage};
ghost use Rattle.cept_delta.specs.Noter.{page_with};
ghost use Rattle.cept_delta.specs.inside.PutBack.{cells_back};

use crate::delta::Delta;
use cept_cells::Grid;
use cept_codes::{Cell, Column, Pen, Pos, Row};
use cept_colours::Colours;
use cept_drcs::Patterns;

/// Puts all old values of a page back, part by part.
pub fn unwind_page(
    delta: &Delta,
    grid: &mut Grid,
    row_pens: &mut [Pen; 24],
    screen_pen: &mut Pen,
    colours: &mut Colours,
    patterns: &mut Patterns,
)
    requires rows { length row_pens.old ≡ 24 }
    requires entries { length colours.old.paints ≡ 32 }
    requires names { length colours.old.dclut ≡ 4 }
    requires valid { IsValidPage (page_unwound (page_with grid.old row_pens.old screen_pen.old
        colours.old patterns.old) delta.now) }
    ensures { page_with grid.new row_pens.new screen_pen.new colours.new patterns.new
        ≡ page_unwound (page_with grid.old row_pens.old screen_pen.old colours.old
        patterns.old) delta.now }
{
    unwind_cells(delta, grid);
    unwind_row_pens(delta, row_pens);
    unwind_screen_pen(delta, screen_pen);
    unwind_colours(delta, colours);
    unwind_patterns(delta, patterns);
}

/// Puts the old cells back.
fn unwind_cells(delta: &Delta, grid: &mut Grid)
    ensures { grid.new ≡ cells_back (λ _ _. true) (old_cell delta.now) grid.old }
{
    grid.whole_by_type();
    for number in 1..25u8 {
        unwind_row(Row::numbered(number), delta, grid);
    }
}

/// Puts the old cells of a row back, where any may be noted.
fn unwind_row(row: Row, delta: &Delta, grid: &mut Grid)
    ensures { grid.new ≡ cells_back (λ r _. row == r) (old_cell delta.now) grid.old }
{
    grid.whole_by_type();
    if !delta.has_row(row) {
        return;
    }
    let old = delta.old_cells(row);
    for number in 1..41u8 {
        let column = Column::numbered(number);
        put_back(Pos::at(row, column), &old[column.index()], grid);
    }
}

/// Puts an old cell back, where there is one.
fn put_back(at: Pos, old: &Option<Cell>, grid: &mut Grid)
    ensures { grid.new ≡ cells_back (is_at at) (λ _ _. old.now) grid.old }
{
    grid.whole_by_type();
    if let Some(cell) = old {
        grid.set(at, *cell);
    }
}

/// Puts the old attributes of rows back, where any may be noted.
fn unwind_row_pens(delta: &Delta, pens: &mut [Pen; 24])
    requires { length pens.old ≡ 24 }
    ensures { pens.new
        ≡ list_of_rows (λ r. unwrap_or (old_row_pen delta.now r) (row_pen_in pens.old r)) }
{
    if !delta.has_row_pens() {
        return;
    }
    for number in 1..25u8 {
        let row = Row::numbered(number);
        let index = row.index();
        pens[index] = delta.old_row_pen(row).unwrap_or(pens[index]);
    }
}

/// Puts the old attributes of the screen back.
fn unwind_screen_pen(delta: &Delta, pen: &mut Pen)
    ensures { pen.new ≡ unwrap_or delta.now.screen_pen pen.old }
{
    *pen = delta.old_screen_pen().unwrap_or(*pen);
}

/// Puts the old colour entries and entries of the DCLUT back, where any may be noted.
fn unwind_colours(delta: &Delta, colours: &mut Colours)
    requires entries { length colours.old.paints ≡ 32 }
    requires names { length colours.old.dclut ≡ 4 }
    requires paints { (i : ℕ) → i < 32 → IfSome (old_paint delta.now i) IsValidPaint }
    requires dclut { (i : ℕ) → i < 4 → IfSome (old_dclut delta.now i) IsEntry }
    ensures paints { colours.new.paints
        ≡ list_of_colours (λ i. unwrap_or (old_paint delta.now i) (paint_in colours.old.paints i)) }
    ensures dclut { colours.new.dclut
        ≡ list_of_dclut (λ i. unwrap_or (old_dclut delta.now i) (dclut_in colours.old.dclut i)) }
{
    if delta.has_colours() {
        put_paints_back(delta, colours);
        put_dclut_back(delta, colours);
    }
}

/// Puts old colour entries back.
fn put_paints_back(delta: &Delta, colours: &mut Colours)
    requires entries { length colours.old.paints ≡ 32 }
    requires paints { (i : ℕ) → i < 32 → IfSome (old_paint delta.now i) IsValidPaint }
    ensures paints { colours.new.paints
        ≡ list_of_colours (λ i. unwrap_or (old_paint delta.now i) (paint_in colours.old.paints i)) }
    ensures dclut { colours.new.dclut ≡ colours.old.dclut }
{
    for i in 0..32u8 {
        let paint = delta.old_paint(i).unwrap_or(colours.paint(i));
        colours.set(i, paint);
    }
}

/// Puts old entries of the DCLUT back.
fn put_dclut_back(delta: &Delta, colours: &mut Colours)
    requires names { length colours.old.dclut ≡ 4 }
    requires dclut { (i : ℕ) → i < 4 → IfSome (old_dclut delta.now i) IsEntry }
    ensures paints { colours.new.paints ≡ colours.old.paints }
    ensures dclut { colours.new.dclut
        ≡ list_of_dclut (λ i. unwrap_or (old_dclut delta.now i) (dclut_in colours.old.dclut i)) }
{
    for i in 0..4u8 {
        let entry = delta.old_dclut(i).unwrap_or(colours.dclut(i));
        colours.set_dclut(i, entry);
    }
}

/// Puts the old patterns back, where any may be noted.
fn unwind_patterns(delta: &Delta, patterns: &mut Patterns)
    requires { (d : ℕ) → 0x21 ≤ d → d ≤ 0x7E
        → IfSome (old_pattern delta.now d) (λ pattern. IfSome pattern IsValidPattern) }
    ensures { patterns.new
        ≡ list_of_codes (λ d. unwrap_or (old_pattern delta.now d) (pattern_in patterns.old d)) }
{
    patterns.valid_by_type();
    if !delta.has_patterns() {
        return;
    }
    for code in 0x21..0x7Fu8 {
        let pattern = delta.old_pattern(code).unwrap_or(patterns.get(code));
        patterns.set(code, pattern);
    }
}
