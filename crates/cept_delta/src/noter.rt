ghost use Rattle.std.specs.Prelude.{◌≡◌, Option, Some, None, length, option_map};
ghost use Rattle.cept_codes.specs.Cell.{blank_cell};
ghost use Rattle.cept_codes.specs.Stroke.{IsValidStroke};
ghost use Rattle.cept_codes.specs.Table.{value_at};
ghost use Rattle.cept_profile.specs.Cells.{is_at};
ghost use Rattle.cept_profile.specs.NotedStrokes.{with_stroke};
ghost use Rattle.cept_profile.specs.OldValues.{OldValues, with_cells, with_control};
ghost use Rattle.cept_delta.specs.Noter.{page_before};

use crate::delta::Delta;
use cept_cells::Grid;
use cept_codes::{Pen, Pos, Stroke};
use cept_colours::Colours;
use cept_control::Control;
use cept_drcs::Patterns;

/// The parts of a page before a stroke, where they stand.
#[derive(Clone, Copy)]
pub struct PageBefore<'p> {
    pub grid: &'p Grid,
    pub row_pens: &'p [Pen; 24],
    pub screen_pen: &'p Pen,
    pub colours: &'p Colours,
    pub patterns: &'p Patterns,
}

/// What takes note of values before they change, if it takes note of any.
pub trait Noter {
    /// The old values that are noted, where any are.
    ghost noted: { Self → Option OldValues };

    /// Notes what a stroke changes on the page of these parts.
    fn note_stroke(&mut self, stroke: &Stroke, before: &PageBefore)
        requires valid { IsValidStroke stroke.now }
        requires rows { length before.now.row_pens.now ≡ 24 }
        ensures { noted self.new
            ≡ option_map (with_stroke (page_before before.now) stroke.now) (noted self.old) };

    /// Notes the cell at a place of a grid.
    fn note_put(&mut self, at: Pos, grid: &Grid)
        ensures { noted self.new
            ≡ option_map (with_cells (is_at at) (value_at blank_cell grid.now)) (noted self.old) };

    /// Notes the control.
    fn note_control(&mut self, control: &Control)
        ensures { noted self.new ≡ option_map (with_control control.now) (noted self.old) };
}

/// A noter that takes note of nothing.
#[derive(Drop)]
pub struct NoNotes;

impl Noter for NoNotes {
    ghost noted = { λ _. None };

    #[inline(always)]
    fn note_stroke(&mut self, _stroke: &Stroke, _before: &PageBefore) {}

    #[inline(always)]
    fn note_put(&mut self, _at: Pos, _grid: &Grid) {}

    #[inline(always)]
    fn note_control(&mut self, _control: &Control) {}
}

impl Noter for Delta {
    ghost noted = { λ delta. Some delta };

    #[inline(always)]
    fn note_stroke(&mut self, stroke: &Stroke, before: &PageBefore) {
        Delta::note_stroke(self, stroke, before);
    }

    #[inline(always)]
    fn note_put(&mut self, at: Pos, grid: &Grid) {
        Delta::note_put(self, at, grid);
    }

    #[inline(always)]
    fn note_control(&mut self, control: &Control) {
        Delta::note_control(self, control);
    }
}
