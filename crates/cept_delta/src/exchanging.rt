ghost use Rattle.std.specs.Prelude.{◌≡◌, ◌≤◌, ◌<◌, ◌==◌, ℕ, false, None, IfSome, length, unwrap_or};
ghost use Rattle.cept_codes.specs.Attribute.{IsEntry};
ghost use Rattle.cept_codes.specs.Cell.{blank_cell};
ghost use Rattle.cept_codes.specs.Look.{IsValidPaint, IsValidPattern};
ghost use Rattle.cept_codes.specs.Place.{OnScreen};
ghost use Rattle.cept_codes.specs.Table.{IsTable, entry, list_by_index, table, value_at};
ghost use Rattle.cept_profile.specs.Cells.{is_at};
ghost use Rattle.cept_profile.specs.PageParts.{dclut_in, list_of_codes, list_of_colours, list_of_dclut};
ghost use Rattle.cept_profile.specs.PageParts.{list_of_rows, paint_in, pattern_in, row_pen_in};
ghost use Rattle.cept_delta.specs.Exchanged.{noted_instead};
ghost use Rattle.cept_delta.specs.inside.PutBack.{cells_back};

use cept_cells::Grid;
use cept_codes::{Cell, Column, Paint, Pattern, Pen, Pos, Row};
use cept_colours::Colours;
use cept_drcs::Patterns;

/// Exchanges an old value with the one in its place: notes this instead and gives the old one. Where
/// there is none, gives this one.
#[inline(always)]
pub(crate) fn exchange_value<X: Copy>(noted: &mut Option<X>, value: X) -> X
    ensures noted { noted.new ≡ noted_instead noted.old value }
    ensures value { result ≡ unwrap_or noted.old value }
{
    match *noted {
        Some(old) => {
            *noted = Some(value);
            old
        }
        None => value,
    }
}

/// Exchanges the old cells of flagged rows with those of a grid.
pub(crate) fn exchange_cells(noted: &mut [[Option<Cell>; 40]], rows: &[bool; 24], grid: &mut Grid)
    requires places { IsTable noted.old }
    requires flags { length rows.now ≡ 24 }
    requires unflagged { (r c : ℕ) → OnScreen r c → entry false 1 rows.now r ≡ false
        → value_at None noted.old r c ≡ None }
    ensures noted { noted.new
        ≡ table (λ r c. noted_instead (value_at None noted.old r c) (value_at blank_cell grid.old r c)) }
    ensures cells { grid.new
        ≡ table (λ r c. unwrap_or (value_at None noted.old r c) (value_at blank_cell grid.old r c)) }
{
    grid.whole_by_type();
    for number in 1..25u8 {
        let row = Row::numbered(number);
        let index = row.index();
        exchange_row(row, rows[index], &mut noted[index], grid);
    }
}

/// Exchanges the old cells of a row, where any may be noted, with those of a grid.
fn exchange_row(row: Row, flagged: bool, noted: &mut [Option<Cell>; 40], grid: &mut Grid)
    requires places { length noted.old ≡ 40 }
    requires unflagged { flagged ≡ false → (c : ℕ) → 1 ≤ c → c ≤ 40 → entry None 1 noted.old c ≡ None }
    ensures noted { noted.new
        ≡ list_by_index 1 40 (λ c. noted_instead (entry None 1 noted.old c) (value_at blank_cell grid.old row c)) }
    ensures cells { grid.new ≡ cells_back (λ r _. row == r) (λ _ c. entry None 1 noted.old c) grid.old }
{
    grid.whole_by_type();
    if !flagged {
        return;
    }
    for number in 1..41u8 {
        let column = Column::numbered(number);
        exchange_cell(Pos::at(row, column), &mut noted[column.index()], grid);
    }
}

/// Exchanges an old cell, where there is one, with that of a grid.
fn exchange_cell(at: Pos, noted: &mut Option<Cell>, grid: &mut Grid)
    ensures noted { noted.new
        ≡ noted_instead noted.old (value_at blank_cell grid.old at.row at.column) }
    ensures cells { grid.new ≡ cells_back (is_at at) (λ _ _. noted.old) grid.old }
{
    grid.whole_by_type();
    if let Some(old) = *noted {
        *noted = Some(grid.get(at));
        grid.set(at, old);
    }
}

/// Exchanges the old attributes of rows, where any may be noted, with these.
pub(crate) fn exchange_row_pens(noted: &mut [Option<Pen>; 24], penned: bool, pens: &mut [Pen; 24])
    requires places { length noted.old ≡ 24 }
    requires none { penned ≡ false → noted.old ≡ list_of_rows (λ _. None) }
    requires rows { length pens.old ≡ 24 }
    ensures noted { noted.new
        ≡ list_of_rows (λ r. noted_instead (entry None 1 noted.old r) (row_pen_in pens.old r)) }
    ensures pens { pens.new
        ≡ list_of_rows (λ r. unwrap_or (entry None 1 noted.old r) (row_pen_in pens.old r)) }
{
    if !penned {
        return;
    }
    for i in 0..24usize {
        pens[i] = exchange_value(&mut noted[i], pens[i]);
    }
}

/// Exchanges the old colour entries and entries of the DCLUT, where any may be noted, with these.
pub(crate) fn exchange_colours(
    paints: &mut [Option<Paint>; 32],
    dclut: &mut [Option<u8>; 4],
    coloured: bool,
    colours: &mut Colours,
)
    requires places { length paints.old ≡ 32 }
    requires name_places { length dclut.old ≡ 4 }
    requires no_paints { coloured ≡ false → paints.old ≡ list_of_colours (λ _. None) }
    requires no_dclut { coloured ≡ false → dclut.old ≡ list_of_dclut (λ _. None) }
    requires entries { length colours.old.paints ≡ 32 }
    requires names { length colours.old.dclut ≡ 4 }
    requires valid { (i : ℕ) → i < 32 → IfSome (entry None 0 paints.old i) IsValidPaint }
    requires valid_dclut { (i : ℕ) → i < 4 → IfSome (entry None 0 dclut.old i) IsEntry }
    ensures noted { paints.new
        ≡ list_of_colours (λ i. noted_instead (entry None 0 paints.old i) (paint_in colours.old.paints i)) }
    ensures noted_dclut { dclut.new
        ≡ list_of_dclut (λ i. noted_instead (entry None 0 dclut.old i) (dclut_in colours.old.dclut i)) }
    ensures paints { colours.new.paints
        ≡ list_of_colours (λ i. unwrap_or (entry None 0 paints.old i) (paint_in colours.old.paints i)) }
    ensures dclut { colours.new.dclut
        ≡ list_of_dclut (λ i. unwrap_or (entry None 0 dclut.old i) (dclut_in colours.old.dclut i)) }
{
    if coloured {
        exchange_paints(paints, colours);
        exchange_dclut(dclut, colours);
    }
}

/// Exchanges old colour entries with these.
fn exchange_paints(noted: &mut [Option<Paint>; 32], colours: &mut Colours)
    requires places { length noted.old ≡ 32 }
    requires entries { length colours.old.paints ≡ 32 }
    requires paints { (i : ℕ) → i < 32 → IfSome (entry None 0 noted.old i) IsValidPaint }
    ensures noted { noted.new
        ≡ list_of_colours (λ i. noted_instead (entry None 0 noted.old i) (paint_in colours.old.paints i)) }
    ensures paints { colours.new.paints
        ≡ list_of_colours (λ i. unwrap_or (entry None 0 noted.old i) (paint_in colours.old.paints i)) }
    ensures dclut { colours.new.dclut ≡ colours.old.dclut }
{
    for i in 0..32u8 {
        let paint = exchange_value(&mut noted[usize::from(i)], colours.paint(i));
        colours.set(i, paint);
    }
}

/// Exchanges old entries of the DCLUT with these.
fn exchange_dclut(noted: &mut [Option<u8>; 4], colours: &mut Colours)
    requires places { length noted.old ≡ 4 }
    requires names { length colours.old.dclut ≡ 4 }
    requires dclut { (i : ℕ) → i < 4 → IfSome (entry None 0 noted.old i) IsEntry }
    ensures noted { noted.new
        ≡ list_of_dclut (λ i. noted_instead (entry None 0 noted.old i) (dclut_in colours.old.dclut i)) }
    ensures paints { colours.new.paints ≡ colours.old.paints }
    ensures dclut { colours.new.dclut
        ≡ list_of_dclut (λ i. unwrap_or (entry None 0 noted.old i) (dclut_in colours.old.dclut i)) }
{
    for i in 0..4u8 {
        let named = exchange_value(&mut noted[usize::from(i)], colours.dclut(i));
        colours.set_dclut(i, named);
    }
}

/// Exchanges the old patterns, where any may be noted, with these.
pub(crate) fn exchange_patterns(
    noted: &mut [Option<Option<Pattern>>],
    patterned: bool,
    patterns: &mut Patterns,
)
    requires places { length noted.old ≡ 94 }
    requires none { patterned ≡ false → noted.old ≡ list_of_codes (λ _. None) }
    requires valid { (d : ℕ) → 0x21 ≤ d → d ≤ 0x7E
        → IfSome (entry None 0x21 noted.old d) (λ pattern. IfSome pattern IsValidPattern) }
    ensures noted { noted.new
        ≡ list_of_codes (λ d. noted_instead (entry None 0x21 noted.old d) (pattern_in patterns.old d)) }
    ensures patterns { patterns.new
        ≡ list_of_codes (λ d. unwrap_or (entry None 0x21 noted.old d) (pattern_in patterns.old d)) }
{
    patterns.valid_by_type();
    if !patterned {
        return;
    }
    for code in 0x21..0x7Fu8 {
        let pattern = exchange_value(&mut noted[usize::from(code) - 0x21], patterns.get(code));
        patterns.set(code, pattern);
    }
}
