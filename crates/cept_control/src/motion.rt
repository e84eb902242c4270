ghost use Rattle.std.specs.Prelude.{◌≡◌, ◌≤◌, ◌<◌, ◌++◌, false, length};
ghost use Rattle.cept_codes.specs.Place.{OnScreen};
ghost use Rattle.cept_control.specs.inside.Taking.{CanTake};
ghost use Rattle.cept_profile.specs.Control.{control_with, effect, working_afresh, working_at};
ghost use Rattle.cept_profile.specs.Motions.{above, ahead, below, row_above, row_below};

use crate::area::{is_first_of, is_last_of};
use crate::control::Control;
use arrayvec::ArrayVec;
use cept_codes::{Command, Pen, Stroke, Up};

/// Motions.
impl Control {
    /// One column back, before the first one into the row above.
    pub(crate) fn back(&mut self, strokes: &mut ArrayVec<Stroke, 128>)
        requires { CanTake Command.Back strokes.old.items }
        ensures state { self.new ≡ (effect self.old Command.Back).0 }
        ensures strokes { strokes.new.items ≡ (effect self.old Command.Back).1 }
    {
        if self.working.column > 1 {
            self.move_to(self.working.row, self.working.column - 1);
        } else if self.wrap {
            self.go_above(40, strokes);
        }
        self.end_run();
    }

    pub(crate) fn forward(&mut self, strokes: &mut ArrayVec<Stroke, 128>)
        requires { CanTake Command.Forward strokes.old.items }
        ensures state { self.new ≡ (effect self.old Command.Forward).0 }
        ensures strokes { strokes.new.items ≡ (effect self.old Command.Forward).1 }
    {
        self.move_on(1, strokes);
        self.end_run();
    }

    pub(crate) fn down(&mut self, strokes: &mut ArrayVec<Stroke, 128>)
        requires { CanTake Command.Down strokes.old.items }
        ensures state { self.new ≡ (effect self.old Command.Down).0 }
        ensures strokes { strokes.new.items ≡ (effect self.old Command.Down).1 }
    {
        self.go_below(self.working.column, strokes);
        self.end_run();
    }

    pub(crate) fn up(&mut self, strokes: &mut ArrayVec<Stroke, 128>)
        requires { CanTake Command.Up strokes.old.items }
        ensures state { self.new ≡ (effect self.old Command.Up).0 }
        ensures strokes { strokes.new.items ≡ (effect self.old Command.Up).1 }
    {
        self.go_above(self.working.column, strokes);
        self.end_run();
    }

    pub(crate) fn to_first_column(&mut self)
        ensures { self.new ≡ (effect self.old Command.Return).0 }
    {
        self.move_to(self.working.row, 1);
        self.end_run();
    }

    pub(crate) fn home(&mut self)
        ensures { self.new ≡ (effect self.old Command.Home).0 }
    {
        // A field that is read opens the model, so that what it promises is known.
        let _rows = self.rows;
        self.start_at(1, 1);
    }

    pub(crate) fn clear(&mut self, strokes: &mut ArrayVec<Stroke, 128>)
        requires { CanTake Command.Clear strokes.old.items }
        ensures state { self.new ≡ (effect self.old Command.Clear).0 }
        ensures strokes { strokes.new.items ≡ (effect self.old Command.Clear).1 }
    {
        strokes.push(Stroke::Wipe);
        self.home();
    }

    pub(crate) fn to_position(&mut self, row: u8, column: u8)
        requires { OnScreen row column }
        ensures { self.new ≡ (effect self.old (Command.Position row column)).0 }
    {
        self.start_at(row.min(self.rows), column);
    }

    /// Some columns on, past the last one into the row below.
    pub(crate) fn move_on(&mut self, columns: u8, strokes: &mut ArrayVec<Stroke, 128>)
        requires columns { columns ≤ 2 }
        requires room { length strokes.old.items < 128 }
        ensures state { self.new ≡ control_with self.old (ahead self.old columns).0 }
        ensures strokes { strokes.new.items ≡ strokes.old.items ++ (ahead self.old columns).1 }
    {
        let column = self.working.column + columns;
        if column > 40 && self.wrap {
            self.go_below(1, strokes);
        } else {
            self.move_to(self.working.row, column.min(40));
        }
    }

    /// Into the row below. At the last row of an area that scrolls its rows go up instead.
    fn go_below(&mut self, column: u8, strokes: &mut ArrayVec<Stroke, 128>)
        requires column { (1 ≤ column) × (column ≤ 40) }
        requires room { length strokes.old.items < 128 }
        ensures state { self.new ≡ control_with self.old (below self.old column).0 }
        ensures strokes { strokes.new.items ≡ strokes.old.items ++ (below self.old column).1 }
    {
        let area = self.scrolling_area();
        if is_last_of(area, self.working.row) {
            self.scroll_area(Up::Up, area, strokes);
            self.move_to(self.working.row, column);
        } else {
            self.move_to(self.row_below(), column);
        }
    }

    /// Into the row above. At the first row of an area that scrolls its rows go down instead.
    fn go_above(&mut self, column: u8, strokes: &mut ArrayVec<Stroke, 128>)
        requires column { (1 ≤ column) × (column ≤ 40) }
        requires room { length strokes.old.items < 128 }
        ensures state { self.new ≡ control_with self.old (above self.old column).0 }
        ensures strokes { strokes.new.items ≡ strokes.old.items ++ (above self.old column).1 }
    {
        let area = self.scrolling_area();
        if is_first_of(area, self.working.row) {
            self.scroll_area(Up::Down, area, strokes);
            self.move_to(self.working.row, column);
        } else {
            self.move_to(self.row_above(), column);
        }
    }

    /// At another position, with no run and no attribute set.
    fn start_at(&mut self, row: u8, column: u8)
        requires on_screen { OnScreen row column }
        requires within { row ≤ self.old.rows }
        ensures { self.new ≡ control_with self.old (working_afresh row column self.old.working) }
    {
        self.move_to(row, column);
        self.end_run();
        self.working.pen = Pen::UNSET;
        self.working.fast = 0;
    }

    pub(crate) fn move_to(&mut self, row: u8, column: u8)
        requires on_screen { OnScreen row column }
        requires within { row ≤ self.old.rows }
        ensures { self.new ≡ control_with self.old (working_at row column self.old.working) }
    {
        self.working.row = row;
        self.working.column = column;
    }

    pub(crate) fn end_run(&mut self)
        ensures { self.new
            ≡ control_with self.old (record self.old.working { run = false; step = 1 }) }
    {
        self.working.run = false;
        self.working.step = 1;
    }

    /// The row below the active one, where no area scrolls.
    fn row_below(&self) -> u8
        ensures row { result ≡ row_below self.now }
        ensures from_top { 1 ≤ result }
        ensures within { result ≤ self.now.rows }
    {
        if self.working.row < self.rows {
            self.working.row + 1
        } else if self.wrap {
            1
        } else {
            self.working.row
        }
    }

    /// The row above the active one, where no area scrolls.
    fn row_above(&self) -> u8
        ensures row { result ≡ row_above self.now }
        ensures from_top { 1 ≤ result }
        ensures within { result ≤ self.now.rows }
    {
        if self.working.row > 1 {
            self.working.row - 1
        } else if self.wrap {
            self.rows
        } else {
            self.working.row
        }
    }
}
