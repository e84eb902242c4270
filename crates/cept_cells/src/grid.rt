ghost use Rattle.std.specs.Prelude.{◌≡◌, ℕ, ◌-◌, ◌<◌, ◌≤◌, false, not, List, length};
ghost use Rattle.std.specs.Prelude.{slice_index_or, slice_set, IfOk};
ghost use Rattle.std.specs.Prelude.{if◌then◌else◌};
ghost use Rattle.cept_codes.specs.declared.cell.Cell.{Cell};
ghost use Rattle.cept_codes.specs.Cell.{blank_cell};
ghost use Rattle.cept_codes.specs.Command.{IsArea};
ghost use Rattle.cept_codes.specs.Place.{OnScreen};
ghost use Rattle.cept_codes.specs.Stroke.{IsValidStroke};
ghost use Rattle.cept_codes.specs.Table.{table, value_at, entry, list_by_index, IsTable};
ghost use Rattle.cept_profile.specs.Cells.{cells_after};
ghost use Rattle.cept_scroll.specs.Order.{rows_turned};
ghost use Rattle.cept_cells.specs.inside.Erased.{cell_after_erasing};
ghost use Rattle.cept_cells.specs.Freed.{cells_freed};
ghost use Rattle.cept_cells.specs.Replaced.{cells_with};

use cept_codes::{Cell, Column, NoMemory, Pos, RowCells, Stroke, Up};
use cept_scroll::RowOrder;
use std::alloc::Global;
use std::marker::Model;

/// A row into which nothing was written.
const BLANK_ROW: [Cell; 40] = [Cell::BLANK; 40];

/// The cells of the screen: 24 rows of 40. Each row stays in its slot: where rows move, their order
/// turns and no cell is copied.
#[derive(Drop)]
pub struct Grid {
    rows: Vec<[Cell; 40]>,
    order: RowOrder,
}

impl Model for Grid {
    ghost use Rattle.std.specs.Prelude.{List};
    ghost use Rattle.cept_codes.specs.declared.cell.Cell.{Cell};
    ghost use Rattle.cept_scroll.specs.Order.{AreInSlots, rows_in_order};

    ghost Value = { List (List Cell) };

    ghost view = { λ g. rows_in_order g.order g.rows.items };

    ghost invariant = { λ g. AreInSlots g.order g.rows.items };
}

impl Grid {
    /// All cells blank and unprotected.
    pub fn new(alloc: Global) -> Result<Grid, NoMemory>
        ensures { IfOk result (λ cells. cells ≡ table (λ _ _. blank_cell)) }
    {
        let mut rows = Vec::with_capacity(alloc, 24)?;
        for _row in 0..24usize {
            rows.push(BLANK_ROW)?;
        }
        let order = RowOrder::new();
        order.ordered_by_type();
        Ok(Grid { rows, order })
    }

    /// The cell at a place, where it stands.
    pub fn at(&self, place: Pos) -> &Cell
        ensures cell { result.now ≡ value_at blank_cell self.now place.row place.column }
        ensures on_screen { OnScreen place.row place.column }
    {
        &self.rows[self.order.index(place.row())][usize::from(place.col()) - 1]
    }

    /// The cell at a place.
    pub fn get(&self, place: Pos) -> Cell
        ensures { result ≡ value_at blank_cell self.now place.row place.column }
    {
        self.rows[self.order.index(place.row())][usize::from(place.col()) - 1]
    }

    /// Writes a cell, unless the cell there is protected. Answers whether it was written.
    pub fn put(&mut self, place: Pos, cell: Cell) -> bool
        ensures answer { result
            ≡ not (value_at blank_cell self.old place.row place.column).protected }
        ensures refused { result ≡ false → self.new ≡ self.old }
        ensures cells { self.new ≡ cells_after self.old (Stroke.Put place cell) }
    {
        let row = &mut self.rows[self.order.index(place.row())];
        put_into(row, place.in_column(), cell)
    }

    /// Replaces the cell at a place, also a protected one.
    pub fn set(&mut self, at: Pos, cell: Cell)
        ensures { self.new ≡ cells_with self.old at cell }
    {
        self.rows[self.order.index(at.row())][usize::from(at.col()) - 1] = cell;
    }

    /// The cells of a row, from the left.
    pub fn row(&self, row: u8) -> RowCells
        requires from_top { 1 ≤ row }
        requires to_bottom { row ≤ 24 }
        ensures cells { (d : List Cell) → result.cells ≡ slice_index_or self.now (row - 1) d }
        ensures columns { length result.cells ≡ 40 }
    {
        RowCells {
            cells: *self.cells(row),
        }
    }

    /// The cells of a row, from the left, where they stand.
    pub fn cells(&self, row: u8) -> &[Cell; 40]
        requires from_top { 1 ≤ row }
        requires to_bottom { row ≤ 24 }
        ensures cells { (d : List Cell) → result.now ≡ slice_index_or self.now (row - 1) d }
        ensures columns { length result.now ≡ 40 }
    {
        &self.rows[self.order.index(row)]
    }

    /// Tells the prover that there are 24 rows of 40: reading a field opens the model.
    #[inline(always)]
    pub fn whole_by_type(&self)
        ensures { IsTable self.now }
    {
        let _rows = &self.rows;
    }

    /// Changes the cells as a stroke does.
    pub fn strike(&mut self, stroke: &Stroke)
        requires { IsValidStroke stroke.now }
        ensures { self.new ≡ cells_after self.old stroke.now }
    {
        self.whole_by_type();
        match stroke {
            Stroke::Put(place, cell) => {
                let _ = self.put(*place, *cell);
            }
            Stroke::Erase(row, from) => self.erase(*row, *from),
            Stroke::Wipe => self.wipe(),
            Stroke::Shift(first, last, way) => self.shift(*first, *last, *way),
            // It moves the cells as a shift does.
            Stroke::Carry(first, last, way) => self.shift(*first, *last, *way),
            // These change no cell.
            Stroke::RowAttr(_, _)
            | Stroke::ScreenAttr(_)
            | Stroke::ScreenClear
            | Stroke::Colour(_, _)
            | Stroke::Dclut(_, _)
            | Stroke::ColourDefaults
            | Stroke::DrcsClear
            | Stroke::Drcs(_, _)
            | Stroke::Format(_) => {}
        }
    }

    /// Blanks the free cells of a row from this column on.
    pub fn erase(&mut self, row: u8, from: u8)
        requires from_top { 1 ≤ row }
        requires to_bottom { row ≤ 24 }
        ensures { self.new ≡ cells_after self.old (Stroke.Erase row from) }
    {
        erase_from(&mut self.rows[self.order.index(row)], from);
    }

    /// Makes every cell of a row blank and unprotected.
    pub fn free(&mut self, row: u8)
        requires from_top { 1 ≤ row }
        requires to_bottom { row ≤ 24 }
        ensures { self.new ≡ cells_freed self.old row }
    {
        self.rows[self.order.index(row)] = BLANK_ROW;
    }

    /// Makes every cell blank and unprotected.
    pub fn wipe(&mut self)
        ensures { self.new ≡ cells_after self.old Stroke.Wipe }
    {
        blank_rows(&mut self.rows);
    }

    /// Takes over all cells of another grid.
    pub fn copy_from(&mut self, from: &Grid)
        ensures { self.new ≡ from.now }
    {
        self.rows.copy_from_slice(&from.rows);
        self.order = from.order;
    }

    /// Moves the rows from the first to the last, `1 <= first <= last <= 24`, one row up or down,
    /// each whole with the protection of its cells. The one that comes free is blank.
    pub fn shift(&mut self, first: u8, last: u8, way: Up)
        requires { IsArea first last }
        ensures { self.new ≡ cells_after self.old (Stroke.Shift first last way) }
    {
        self.turn(first, last, way);
        match way {
            Up::Up => self.free(last),
            Up::Down => self.free(first),
        }
    }

    /// Moves the rows of an area one row up or down. The one that leaves it stands in the row that
    /// comes free.
    fn turn(&mut self, first: u8, last: u8, way: Up)
        requires { IsArea first last }
        ensures { self.new ≡ rows_turned way first last self.old }
    {
        self.order.turn(first, last, way);
    }
}

/// Writes a cell into a row, unless the cell there is protected. Answers whether it was written.
fn put_into(cells: &mut [Cell; 40], column: Column, cell: Cell) -> bool
    requires { length cells.old ≡ 40 }
    ensures answer { result ≡ not (entry blank_cell 1 cells.old column).protected }
    ensures cells { cells.new ≡ (if result then slice_set cells.old (column - 1) cell else cells.old) }
{
    let here = &mut cells[column.index()];
    let free = !here.protected;
    if free {
        *here = cell;
    }
    free
}

/// Blanks all cells of these rows.
fn blank_rows(rows: &mut [[Cell; 40]])
    ensures { (i : ℕ) (d : List Cell) → i < length rows.old
        → slice_index_or rows.new i d ≡ BLANK_ROW }
{
    for row in rows.iter_mut() {
        *row = BLANK_ROW;
    }
}

/// Blanks the free cells of a row from this column on.
fn erase_from(cells: &mut [Cell; 40], from: u8)
    requires columns { length cells.old ≡ 40 }
    ensures { cells.new
        ≡ list_by_index 1 40 (cell_after_erasing from (entry blank_cell 1 cells.old)) }
{
    for i in usize::from(from).saturating_sub(1).min(40)..40 {
        cells[i] = cell_after_erasing(&cells[i]);
    }
}

/// A protected cell as it is, any other blank.
fn cell_after_erasing(cell: &Cell) -> Cell
    ensures { result ≡ (if cell.now.protected then cell.now else blank_cell) }
{
    if cell.protected { *cell } else { Cell::BLANK }
}
