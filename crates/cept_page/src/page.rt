ghost use Rattle.std.specs.Prelude.{◌≡◌, ◌-◌, true, [], IfOk, length, option_map, slice_index_or};
ghost use Rattle.std.specs.List.{AllByRecursion};
ghost use Rattle.cept_codes.specs.Attribute.{IsRowPen, IsScreenPen};
ghost use Rattle.cept_codes.specs.Place.{IsRow};
ghost use Rattle.cept_codes.specs.Stroke.{IsValidStroke};
ghost use Rattle.cept_profile.specs.NotedStrokes.{with_stroke, with_strokes};
ghost use Rattle.cept_profile.specs.OldValues.{page_unwound};
ghost use Rattle.cept_profile.specs.PageParts.{row_pen_in};
ghost use Rattle.cept_profile.specs.State.{page_after, state};
ghost use Rattle.cept_profile.specs.Valid.{IsValidPage};
ghost use Rattle.cept_delta.specs.Exchanged.{page_exchanged};
ghost use Rattle.cept_page.specs.Behind.{page_behind};
ghost use Rattle.cept_page.specs.Drawn.{IsDrawn};
ghost use Rattle.cept_page.specs.MarkedRows.{IsPutAmongSigns, StandsAlone};
ghost use Rattle.cept_page.specs.Parts.{cell_at, pens_of};

use crate::flags_anew::flag_unwound;
use crate::page_parts::{set_colours, set_patterns, set_row_pens, set_screen_pen};
use crate::row_flags::{flag_put, flag_rows, has_marker_from, is_marker, is_unflagged};
use cept_cells::Grid;
use cept_codes::{Cell, NoMemory, Pen, Pos, Row, Stroke};
use cept_colours::Colours;
use cept_delta::{Delta, Noter, PageBefore, unwind_page};
use cept_drcs::Patterns;
use std::alloc::Global;
use std::marker::Model;

/// What strokes change: the cells of the screen, the attributes of its rows and of the whole, the
/// colour entries, the DCLUT and the patterns. Beside them stands for each row whether it may have a marker, and
/// whether a double size may be set in it.
#[derive(Drop)]
pub struct Page {
    grid: Grid,
    row_pens: [Pen; 24],
    screen_pen: Pen,
    colours: Colours,
    patterns: Patterns,
    marked: [bool; 24],
    sized: [bool; 24],
}

/// The attributes of the rows of a page, and of its screen.
#[derive(Clone, Copy)]
pub struct Pens {
    pub rows: [Pen; 24],
    pub screen: Pen,
}

impl Model for Page {
    ghost use Rattle.cept_profile.specs.State.{Page as PageOfParts};
    ghost use Rattle.cept_page.specs.Fields.{page_of};
    ghost use Rattle.cept_page.specs.MarkedRows.{IsKeptPage};

    ghost Value = { PageOfParts };

    ghost view = { page_of };

    ghost invariant = { λ p. IsKeptPage (page_of p) p.marked p.sized };
}

impl Page {
    /// The page at the start.
    pub fn new(alloc: Global) -> Result<Page, NoMemory>
        ensures { IfOk result (λ made. made ≡ (state []).page) }
    {
        let grid = Grid::new(alloc)?;
        let patterns = Patterns::new(alloc)?;
        Ok(Page {
            grid,
            row_pens: [Pen::UNSET; 24],
            screen_pen: Pen::UNSET,
            colours: Colours::new(),
            patterns,
            marked: [false; 24],
            sized: [false; 24],
        })
    }

    /// The cell at a place.
    pub fn cell(&self, place: Pos) -> Cell
        ensures { result ≡ cell_at self.now place }
    {
        self.grid.get(place)
    }

    /// The cells of a row, from the left, where they stand.
    #[inline(always)]
    pub fn cells(&self, row: Row) -> &[Cell; 40]
        ensures cells { result.now ≡ slice_index_or self.now.cells (row - 1) [] }
        ensures on_screen { IsRow row }
    {
        self.grid.cells(row.number())
    }

    /// Whether each cell of a row looks as it does by itself: no marker stands in it, and neither in it
    /// nor in the row above is a double size set. Where one was before, the answer may be no until
    /// all is wiped.
    pub fn stands_alone(&self, row: Row) -> bool
        ensures { result ≡ true → StandsAlone self.now row }
    {
        is_unflagged(row, &self.marked, &self.sized)
    }

    /// The attributes of a row, where they stand.
    pub fn row_pen(&self, row: Row) -> &Pen
        requires valid { IsValidPage self.now }
        ensures pen { result.now ≡ row_pen_in self.now.row_pens row }
        ensures valid { IsRowPen result.now }
    {
        &self.row_pens[row.index()]
    }

    /// The attributes of the screen, where they stand.
    pub fn screen_pen(&self) -> &Pen
        requires { IsValidPage self.now }
        ensures pen { result.now ≡ self.now.screen_pen }
        ensures valid { IsScreenPen result.now }
    {
        &self.screen_pen
    }

    /// The attributes of all rows and of the screen.
    pub fn pens(&self) -> Pens
        ensures pens { result ≡ pens_of self.now }
        ensures rows { length result.rows ≡ 24 }
    {
        Pens {
            rows: self.row_pens,
            screen: self.screen_pen,
        }
    }

    /// The colour entries and the DCLUT, where they stand.
    pub fn colours(&self) -> &Colours
        ensures paints { result.now.paints ≡ self.now.paints }
        ensures dclut { result.now.dclut ≡ self.now.dclut }
    {
        &self.colours
    }

    /// The patterns, where they stand.
    pub fn patterns(&self) -> &Patterns
        ensures { result.now ≡ self.now.patterns }
    {
        &self.patterns
    }

    /// Changes the page as the strokes do, one after the other, and notes what each changes.
    pub fn draw_all<N: Noter>(&mut self, strokes: &[Stroke], noter: &mut N)
        requires { AllByRecursion IsValidStroke strokes.now }
        ensures drawn { self.new ≡ page_after self.old strokes.now }
        ensures unwound { page_behind (N.noted noter.new) self.new ≡ page_behind (N.noted noter.old) self.old }
        ensures noted { N.noted noter.new
            ≡ option_map (with_strokes self.old strokes.now) (N.noted noter.old) }
    {
        for stroke in strokes {
            self.draw(stroke, noter);
        }
    }

    /// Puts a cell, unless the one there is protected, and notes the one there. Answers whether each
    /// cell of its row looks as it does by itself, before and after: no marker stands in the row, and
    /// neither in it nor in the row above is a double size set. Where one was before, the answer may
    /// be no until all is wiped.
    pub fn put<N: Noter>(&mut self, place: Pos, cell: &Cell, noter: &mut N) -> bool
        ensures drawn { IsDrawn self.old (Stroke.Put place cell.now) self.new }
        ensures before { result ≡ true → StandsAlone self.old place.row }
        ensures after { result ≡ true → StandsAlone self.new place.row }
        ensures unwound { page_behind (N.noted noter.new) self.new ≡ page_behind (N.noted noter.old) self.old }
        ensures noted { N.noted noter.new
            ≡ option_map (with_stroke self.old (Stroke.Put place cell.now)) (N.noted noter.old) }
    {
        noter.note_put(place, &self.grid);
        let _ = self.grid.put(place, *cell);
        flag_put(place, cell, &mut self.marked, &mut self.sized);
        is_unflagged(place.in_row(), &self.marked, &self.sized)
    }

    /// Whether neither this cell nor the one there is known to be a marker, nor one to the right of it: then
    /// no other cell looks otherwise by itself where it is put.
    #[inline(always)]
    pub fn puts_among_signs(&self, place: Pos, cell: &Cell) -> bool
        ensures { result ≡ true → IsPutAmongSigns self.now place cell.now }
    {
        let row = place.in_row();
        if is_marker(&cell.what) {
            return false;
        }
        if self.marked[row.index()] {
            return !has_marker_from(self.grid.cells(row.number()), place.in_column());
        }
        true
    }

    /// Changes the page as a stroke does, and notes what it changes.
    fn draw<N: Noter>(&mut self, stroke: &Stroke, noter: &mut N)
        requires { IsValidStroke stroke.now }
        ensures drawn { IsDrawn self.old stroke.now self.new }
        ensures unwound { page_behind (N.noted noter.new) self.new ≡ page_behind (N.noted noter.old) self.old }
        ensures noted { N.noted noter.new
            ≡ option_map (with_stroke self.old stroke.now) (N.noted noter.old) }
    {
        let before = PageBefore {
            grid: &self.grid,
            row_pens: &self.row_pens,
            screen_pen: &self.screen_pen,
            colours: &self.colours,
            patterns: &self.patterns,
        };
        noter.note_stroke(stroke, &before);
        self.grid.strike(stroke);
        set_row_pens(stroke, &mut self.row_pens);
        set_screen_pen(stroke, &mut self.screen_pen);
        set_colours(stroke, &mut self.colours);
        set_patterns(stroke, &mut self.patterns);
        flag_rows(stroke, &mut self.marked, &mut self.sized);
    }

    /// Puts old values back in place of its own, where there are such.
    pub fn unwind(&mut self, delta: &Delta)
        requires was_valid { IsValidPage self.old }
        requires valid { IsValidPage (page_unwound self.old delta.now) }
        ensures { self.new ≡ page_unwound self.old delta.now }
    {
        unwind_page(
            delta,
            &mut self.grid,
            &mut self.row_pens,
            &mut self.screen_pen,
            &mut self.colours,
            &mut self.patterns,
        );
        flag_unwound(
            delta,
            &self.grid,
            &self.row_pens,
            &mut self.marked,
            &mut self.sized,
        );
    }
    /// Exchanges old values with its own, where there are such.
    pub fn exchange(&mut self, delta: &mut Delta)
        requires was_valid { IsValidPage self.old }
        requires valid { IsValidPage (page_unwound self.old delta.old) }
        ensures page { self.new ≡ page_unwound self.old delta.old }
        ensures noted { delta.new ≡ page_exchanged self.old delta.old }
    {
        delta.exchange_page(
            &mut self.grid,
            &mut self.row_pens,
            &mut self.screen_pen,
            &mut self.colours,
            &mut self.patterns,
        );
        flag_unwound(
            delta,
            &self.grid,
            &self.row_pens,
            &mut self.marked,
            &mut self.sized,
        );
    }
}
