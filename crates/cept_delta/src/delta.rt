ghost use Rattle.std.specs.Prelude.{◌≡◌, ◌≤◌, ◌<◌, ◌-◌, ◌==◌, ◌&&◌, ℕ, true, false, nat_le};
ghost use Rattle.std.specs.Prelude.{IfOk, Option, None, [], is_some, length, slice_index_or, unwrap_or};
ghost use Rattle.std.specs.List.{list_any};
ghost use Rattle.cept_codes.specs.declared.cell.Cell.{Cell};
ghost use Rattle.cept_codes.specs.Attribute.{IsEntry};
ghost use Rattle.cept_codes.specs.Cell.{blank_cell};
ghost use Rattle.cept_codes.specs.Command.{IsArea};
ghost use Rattle.cept_codes.specs.Place.{OnScreen};
ghost use Rattle.cept_codes.specs.Stroke.{IsValidStroke};
ghost use Rattle.cept_codes.specs.Table.{IsTable, entry, list_by_index, table, value_at};
ghost use Rattle.cept_profile.specs.Cells.{is_at};
ghost use Rattle.cept_profile.specs.NotedStrokes.{with_stroke};
ghost use Rattle.cept_profile.specs.OldValues.{old_cell, old_dclut, old_paint, old_pattern, old_row_pen};
ghost use Rattle.cept_profile.specs.OldValues.{first_noted, no_old_values, noted_where, with_cells};
ghost use Rattle.cept_profile.specs.OldValues.{with_dclut, with_paints, with_patterns, with_row_pens, with_screen_pen};
ghost use Rattle.cept_profile.specs.OldValues.{page_unwound, with_control};
ghost use Rattle.cept_profile.specs.PageParts.{dclut_in, list_of_codes, paint_in, pattern_in, row_pen_in};
ghost use Rattle.cept_profile.specs.Valid.{IsValidPage};
ghost use Rattle.cept_delta.specs.Delta.{HasPlaces};
ghost use Rattle.cept_delta.specs.Exchanged.{noted_instead, page_exchanged};
ghost use Rattle.cept_delta.specs.Noter.{page_before, page_with};
ghost use Rattle.cept_delta.specs.Noted.{notes_cells, notes_row, notes_screen};

use crate::exchanging::{
    exchange_cells, exchange_colours, exchange_patterns, exchange_row_pens, exchange_value,
};
use crate::noter::PageBefore;
use cept_cells::Grid;
use cept_codes::{Cell, NoMemory, Paint, Pattern, Pen, Pos, Row, Stroke};
use cept_colours::Colours;
use cept_control::Control;
use cept_drcs::Patterns;
use std::alloc::Global;
use std::marker::Model;

/// A row of which no cell is noted.
const NO_CELLS: [Option<Cell>; 40] = [None; 40];

/// No attributes of a row.
const NO_PENS: [Option<Pen>; 24] = [None; 24];

/// No colour entry.
const NO_PAINTS: [Option<Paint>; 32] = [None; 32];

/// No entry of the DCLUT.
const NO_DCLUT: [Option<u8>; 4] = [None; 4];

/// No row of which a cell is noted.
const NO_ROWS: [bool; 24] = [false; 24];

/// Old values of a screen: what stood at locations of its state before they changed, so that they can
/// be put back. There are 960 cells, the attributes of 24 rows and of the screen, 32 colour
/// entries, four entries of the DCLUT, 94 patterns and the control. Room for each is made at the
/// start. Of each the first old value stands alone.
#[derive(Drop)]
pub struct Delta {
    cells: Vec<[Option<Cell>; 40]>,
    row_pens: [Option<Pen>; 24],
    screen_pen: Option<Pen>,
    paints: [Option<Paint>; 32],
    dclut: [Option<u8>; 4],
    patterns: Vec<Option<Option<Pattern>>>,
    control: Option<Control>,
    rows: [bool; 24],
    penned: bool,
    coloured: bool,
    patterned: bool,
}

impl Model for Delta {
    ghost use Rattle.cept_profile.specs.OldValues.{OldValues};
    ghost use Rattle.cept_delta.specs.Delta.{IsKeptDelta, values_of};

    ghost Value = { OldValues };

    ghost view = { values_of };

    ghost invariant = { λ d. IsKeptDelta (values_of d) d.rows d.penned d.coloured d.patterned };
}

impl Delta {
    /// No old value.
    pub fn new(alloc: Global) -> Result<Delta, NoMemory>
        ensures { IfOk result (λ delta. delta ≡ no_old_values) }
    {
        let mut cells = Vec::with_capacity(alloc, 24)?;
        for _row in 0..24usize {
            cells.push(NO_CELLS)?;
        }
        let mut patterns = Vec::with_capacity(alloc, 94)?;
        for _code in 0..94usize {
            patterns.push(None)?;
        }
        Ok(Delta {
            cells,
            row_pens: NO_PENS,
            screen_pen: None,
            paints: NO_PAINTS,
            dclut: NO_DCLUT,
            patterns,
            control: None,
            rows: NO_ROWS,
            penned: false,
            coloured: false,
            patterned: false,
        })
    }

    /// Forgets all old values, and notes this control.
    pub fn restart(&mut self, control: &Control)
        ensures { self.new ≡ with_control control.now no_old_values }
    {
        forget_cells(&mut self.cells, &self.rows);
        forget_patterns(&mut self.patterns, self.patterned);
        self.row_pens = NO_PENS;
        self.screen_pen = None;
        self.paints = NO_PAINTS;
        self.dclut = NO_DCLUT;
        self.control = Some(*control);
        self.rows = NO_ROWS;
        self.penned = false;
        self.coloured = false;
        self.patterned = false;
    }

    /// Tells the prover that there is a place for each location: reading a field opens the model.
    pub fn places_by_type(&self)
        ensures { HasPlaces self.now }
    {
        let _cells = &self.cells;
    }

    /// Notes the cell at a place.
    fn note_cell(&mut self, at: Pos, cell: &Cell)
        ensures { self.new ≡ with_cells (is_at at) (λ _ _. cell.now) self.old }
    {
        let index = usize::from(at.row()) - 1;
        self.rows[index] = true;
        note(&mut self.cells[index][usize::from(at.col()) - 1], cell);
    }

    /// Notes what a stroke changes on the page of these parts.
    pub(crate) fn note_stroke(&mut self, stroke: &Stroke, before: &PageBefore)
        requires valid { IsValidStroke stroke.now }
        requires rows { length before.now.row_pens.now ≡ 24 }
        ensures { self.new ≡ with_stroke (page_before before.now) stroke.now self.old }
    {
        match stroke {
            Stroke::Put(place, _) => self.note_put(*place, before.grid),
            Stroke::Erase(row, from) => self.note_row(Row::numbered(*row), *from, before.grid),
            Stroke::Wipe => {
                self.note_all_cells(before.grid);
                self.note_all_row_pens(before.row_pens);
            }
            Stroke::Shift(first, last, _) => self.note_rows(*first, *last, before.grid),
            Stroke::Carry(first, last, _) => {
                self.note_rows(*first, *last, before.grid);
                self.note_row_pens(*first, *last, before.row_pens);
            }
            Stroke::RowAttr(row, _) => self.note_row_pen(Row::numbered(*row), before.row_pens),
            Stroke::ScreenAttr(_) | Stroke::ScreenClear => self.note_screen_pen(before.screen_pen),
            Stroke::Colour(i, _) => self.note_paint(*i, before.colours),
            Stroke::Dclut(i, _) => self.note_dclut(*i, before.colours),
            Stroke::ColourDefaults => self.note_colours(before.colours),
            Stroke::DrcsClear => self.note_patterns(before.patterns),
            Stroke::Drcs(code, _) => self.note_pattern(*code, before.patterns),
            // It changes nothing of the page.
            Stroke::Format(_) => {}
        }
    }

    /// Notes the cell at a place of a grid.
    #[inline(always)]
    pub(crate) fn note_put(&mut self, at: Pos, grid: &Grid)
        ensures { self.new ≡ with_cells (is_at at) (value_at blank_cell grid.now) self.old }
    {
        self.note_cell(at, grid.at(at));
    }

    /// Notes all cells of a grid.
    fn note_all_cells(&mut self, grid: &Grid)
        ensures { self.new ≡ with_cells (λ _ _. true) (value_at blank_cell grid.now) self.old }
    {
        self.note_rows(1, 24, grid);
    }

    /// Notes the cells of a row of a grid from this column on.
    fn note_row(&mut self, row: Row, from: u8, grid: &Grid)
        ensures { self.new
            ≡ with_cells (λ r c. row == r && nat_le from c) (value_at blank_cell grid.now) self.old }
    {
        let index = row.index();
        self.rows[index] = true;
        note_from(&mut self.cells[index], from, grid.cells(row.number()));
    }

    /// Notes all cells of these rows.
    fn note_rows(&mut self, first: u8, last: u8, grid: &Grid)
        requires { IsArea first last }
        ensures { self.new
            ≡ with_cells (λ r _. nat_le first r && nat_le r last) (value_at blank_cell grid.now) self.old }
    {
        self.places_by_type();
        for number in first..last + 1 {
            self.note_row(Row::numbered(number), 1, grid);
        }
    }

    /// Notes the attributes of one row of these.
    fn note_row_pen(&mut self, row: Row, pens: &[Pen; 24])
        requires { length pens.now ≡ 24 }
        ensures { self.new ≡ with_row_pens (λ r. row == r) (row_pen_in pens.now) self.old }
    {
        self.penned = true;
        let index = row.index();
        self.row_pens[index] = first_noted(self.row_pens[index], pens[index]);
    }

    /// Notes the attributes of these rows.
    fn note_row_pens(&mut self, first: u8, last: u8, pens: &[Pen; 24])
        requires area { IsArea first last }
        requires rows { length pens.now ≡ 24 }
        ensures { self.new
            ≡ with_row_pens (λ r. nat_le first r && nat_le r last) (row_pen_in pens.now) self.old }
    {
        self.places_by_type();
        for number in first..last + 1 {
            self.note_row_pen(Row::numbered(number), pens);
        }
    }

    /// Notes the attributes of all rows.
    fn note_all_row_pens(&mut self, pens: &[Pen; 24])
        requires { length pens.now ≡ 24 }
        ensures { self.new ≡ with_row_pens (λ _. true) (row_pen_in pens.now) self.old }
    {
        self.note_row_pens(1, 24, pens);
    }

    /// Notes the attributes of the screen.
    pub(crate) fn note_screen_pen(&mut self, pen: &Pen)
        ensures { self.new ≡ with_screen_pen pen.now self.old }
    {
        self.screen_pen = first_noted(self.screen_pen, *pen);
    }

    /// Notes the paint of one colour entry of these, 0 to 31.
    fn note_paint(&mut self, i: u8, colours: &Colours)
        requires { IsEntry i }
        ensures { self.new ≡ with_paints (λ j. i == j) (paint_in colours.now.paints) self.old }
    {
        self.coloured = true;
        note(&mut self.paints[usize::from(i)], &colours.paint(i));
    }

    /// Notes one entry of the DCLUT of these, 0 to 3.
    fn note_dclut(&mut self, i: u8, colours: &Colours)
        requires { i < 4 }
        ensures { self.new ≡ with_dclut (λ j. i == j) (dclut_in colours.now.dclut) self.old }
    {
        self.coloured = true;
        note(&mut self.dclut[usize::from(i)], &colours.dclut(i));
    }

    /// Notes all colour entries, and the DCLUT.
    fn note_colours(&mut self, colours: &Colours)
        ensures { self.new
            ≡ with_dclut (λ _. true) (dclut_in colours.now.dclut)
            (with_paints (λ _. true) (paint_in colours.now.paints) self.old) }
    {
        self.note_paints(colours);
        self.places_by_type();
        for i in 0..4u8 {
            self.note_dclut(i, colours);
        }
    }

    /// Notes all colour entries.
    fn note_paints(&mut self, colours: &Colours)
        ensures { self.new ≡ with_paints (λ _. true) (paint_in colours.now.paints) self.old }
    {
        self.places_by_type();
        for i in 0..32u8 {
            self.note_paint(i, colours);
        }
    }

    /// Notes the patterns of all codes.
    fn note_patterns(&mut self, patterns: &Patterns)
        ensures { self.new ≡ with_patterns (λ _. true) (pattern_in patterns.now) self.old }
    {
        self.places_by_type();
        for code in 0x21..0x7Fu8 {
            self.note_pattern(code, patterns);
        }
    }

    /// Notes the pattern of one code of these, 0x21 to 0x7E, or that it has none.
    fn note_pattern(&mut self, code: u8, patterns: &Patterns)
        requires from_first { 0x21 ≤ code }
        requires to_last { code ≤ 0x7E }
        ensures { self.new ≡ with_patterns (λ d. code == d) (pattern_in patterns.now) self.old }
    {
        self.patterned = true;
        note(
            &mut self.patterns[usize::from(code) - 0x21],
            &patterns.get(code),
        );
    }

    /// Whether a cell of the row may be noted.
    pub(crate) fn has_row(&self, row: Row) -> bool
        ensures { result ≡ false → (c : ℕ) → OnScreen row c → old_cell self.now row c ≡ None }
    {
        self.rows[row.index()]
    }

    /// The old cells of a row, where they stand.
    pub(crate) fn old_cells(&self, row: Row) -> &[Option<Cell>; 40]
        ensures cells { result.now ≡ slice_index_or self.now.cells (row - 1) [] }
        ensures columns { length result.now ≡ 40 }
    {
        &self.cells[row.index()]
    }

    /// Whether attributes of a row may be noted.
    pub(crate) fn has_row_pens(&self) -> bool
        ensures { result ≡ false → self.now.row_pens ≡ no_old_values.row_pens }
    {
        self.penned
    }

    /// The old attributes of a row.
    pub(crate) fn old_row_pen(&self, row: Row) -> Option<Pen>
        ensures { result ≡ old_row_pen self.now row }
    {
        self.row_pens[row.index()]
    }

    /// The old attributes of the screen.
    pub(crate) fn old_screen_pen(&self) -> Option<Pen>
        ensures { result ≡ self.now.screen_pen }
    {
        self.screen_pen
    }

    /// Whether colour entries or entries of the DCLUT may be noted.
    pub(crate) fn has_colours(&self) -> bool
        ensures paints { result ≡ false → self.now.paints ≡ no_old_values.paints }
        ensures dclut { result ≡ false → self.now.dclut ≡ no_old_values.dclut }
    {
        self.coloured
    }

    /// The old paint of a colour entry, 0 to 31.
    pub(crate) fn old_paint(&self, i: u8) -> Option<Paint>
        requires { IsEntry i }
        ensures { result ≡ old_paint self.now i }
    {
        self.paints[usize::from(i)]
    }

    /// The colour entry that an entry of the DCLUT, 0 to 3, named.
    pub(crate) fn old_dclut(&self, i: u8) -> Option<u8>
        requires { i < 4 }
        ensures { result ≡ old_dclut self.now i }
    {
        self.dclut[usize::from(i)]
    }

    /// Whether patterns may be noted.
    pub(crate) fn has_patterns(&self) -> bool
        ensures { result ≡ false → self.now.patterns ≡ no_old_values.patterns }
    {
        self.patterned
    }

    /// The old pattern of a code, 0x21 to 0x7E, which may be none.
    pub(crate) fn old_pattern(&self, code: u8) -> Option<Option<Pattern>>
        requires from_first { 0x21 ≤ code }
        requires to_last { code ≤ 0x7E }
        ensures { result ≡ old_pattern self.now code }
    {
        self.patterns[usize::from(code) - 0x21]
    }

    /// The old control.
    pub fn old_control(&self) -> Option<Control>
        ensures { result ≡ self.now.control }
    {
        self.control
    }

    /// Exchanges the old values of a page with those of the page of these parts.
    pub fn exchange_page(
        &mut self,
        grid: &mut Grid,
        row_pens: &mut [Pen; 24],
        screen_pen: &mut Pen,
        colours: &mut Colours,
        patterns: &mut Patterns,
    )
        requires rows { length row_pens.old ≡ 24 }
        requires entries { length colours.old.paints ≡ 32 }
        requires names { length colours.old.dclut ≡ 4 }
        requires valid { IsValidPage (page_unwound (page_with grid.old row_pens.old screen_pen.old
            colours.old patterns.old) self.old) }
        ensures page { page_with grid.new row_pens.new screen_pen.new colours.new patterns.new
            ≡ page_unwound (page_with grid.old row_pens.old screen_pen.old colours.old
            patterns.old) self.old }
        ensures noted { self.new
            ≡ page_exchanged (page_with grid.old row_pens.old screen_pen.old colours.old
            patterns.old) self.old }
    {
        exchange_cells(&mut self.cells, &self.rows, grid);
        exchange_row_pens(&mut self.row_pens, self.penned, row_pens);
        *screen_pen = exchange_value(&mut self.screen_pen, *screen_pen);
        exchange_colours(&mut self.paints, &mut self.dclut, self.coloured, colours);
        exchange_patterns(&mut self.patterns, self.patterned, patterns);
    }

    /// Exchanges the old control with this one.
    pub fn exchange_control(&mut self, control: &mut Control)
        ensures control { control.new ≡ unwrap_or self.old.control control.old }
        ensures noted { self.new
            ≡ record self.old { control = noted_instead self.old.control control.old } }
    {
        *control = exchange_value(&mut self.control, *control);
    }

    /// Notes the control.
    pub(crate) fn note_control(&mut self, control: &Control)
        ensures { self.new ≡ with_control control.now self.old }
    {
        note(&mut self.control, control);
    }
}

/// Notes a value where none is noted.
#[inline(always)]
fn note<X: Copy>(place: &mut Option<X>, value: &X)
    ensures { place.new ≡ first_noted place.old value.now }
{
    if place.is_none() {
        *place = Some(*value);
    }
}

/// Notes cells of a row from this column on.
fn note_from(noted: &mut [Option<Cell>; 40], from: u8, cells: &[Cell; 40])
    requires places { length noted.old ≡ 40 }
    requires columns { length cells.now ≡ 40 }
    ensures { noted.new
        ≡ list_by_index 1 40 (λ c. noted_where (nat_le from c) (entry blank_cell 1 cells.now c)
        (entry None 1 noted.old c)) }
{
    for i in usize::from(from).saturating_sub(1).min(40)..40 {
        note(&mut noted[i], &cells[i]);
    }
}

/// Forgets the cells of rows that are flagged.
fn forget_cells(cells: &mut [[Option<Cell>; 40]], rows: &[bool; 24])
    requires is { IsTable cells.old }
    requires flags { length rows.now ≡ 24 }
    requires unflagged { (r c : ℕ) → OnScreen r c → entry false 1 rows.now r ≡ false
        → value_at None cells.old r c ≡ None }
    ensures { cells.new ≡ table (λ _ _. None) }
{
    for row in 0..24usize {
        if rows[row] {
            cells[row] = NO_CELLS;
        }
    }
}

/// Forgets the patterns of all codes, where any may be noted.
fn forget_patterns(patterns: &mut [Option<Option<Pattern>>], patterned: bool)
    requires codes { length patterns.old ≡ 94 }
    requires none { patterned ≡ false → patterns.old ≡ list_of_codes (λ _. None) }
    ensures { patterns.new ≡ list_of_codes (λ _. None) }
{
    if !patterned {
        return;
    }
    for pattern in patterns.iter_mut() {
        *pattern = None;
    }
}

/// The value that is noted, else this one.
#[inline(always)]
fn first_noted<X: Copy>(noted: Option<X>, value: X) -> Option<X>
    ensures { result ≡ first_noted noted value }
{
    if noted.is_none() { Some(value) } else { noted }
}

impl Delta {
    /// Whether a cell of a row is noted, or its attributes are.
    // In the caller, since each undo asks it of all rows.
    #[tactic(auto, unfolding(crate::specs::Noted::notes_row))]
    #[inline(always)]
    pub fn notes_row(&self, row: u8) -> bool
        requires from_top { 1 ≤ row }
        requires to_bottom { row ≤ 24 }
        ensures { result ≡ notes_row self.now row }
    {
        let row = Row::numbered(row);
        self.notes_cells(row) || self.notes_row_pen(row)
    }

    /// Whether a cell of a row is noted.
    #[inline(always)]
    fn notes_cells(&self, row: Row) -> bool
        ensures { result ≡ notes_cells self.now row }
    {
        let index = row.index();
        self.rows[index] && one_noted(&self.cells[index])
    }

    /// Whether attributes of a row are noted.
    fn notes_row_pen(&self, row: Row) -> bool
        ensures { result ≡ is_some (old_row_pen self.now row) }
    {
        self.row_pens[row.index()].is_some()
    }

    /// Whether something is noted by which any row may look: attributes of the screen, a colour
    /// entry, an entry of the DCLUT or a pattern.
    #[tactic(auto, unfolding(crate::specs::Noted::notes_screen))]
    pub fn notes_screen(&self) -> bool
        ensures { result ≡ notes_screen self.now }
    {
        self.screen_pen.is_some()
            || self.notes_paints()
            || self.notes_dclut()
            || self.notes_patterns()
    }

    /// Whether a colour entry is noted.
    fn notes_paints(&self) -> bool
        ensures { result ≡ list_any is_some self.now.paints }
    {
        self.coloured && one_noted(&self.paints)
    }

    /// Whether an entry of the DCLUT is noted.
    fn notes_dclut(&self) -> bool
        ensures { result ≡ list_any is_some self.now.dclut }
    {
        self.coloured && one_noted(&self.dclut)
    }

    /// Whether a pattern is noted.
    fn notes_patterns(&self) -> bool
        ensures { result ≡ list_any is_some self.now.patterns }
    {
        self.patterned && one_noted(&self.patterns)
    }
}

/// Whether one of the places has an old value.
fn one_noted<X: Copy>(places: &[Option<X>]) -> bool
    ensures { result ≡ list_any is_some places.now }
{
    places.iter().any(|place| place.is_some())
}
