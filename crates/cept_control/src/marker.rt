ghost use Rattle.std.specs.Prelude.{◌≡◌, ◌+◌, ◌≤◌, ◌⊎◌, ◌++◌, length};
ghost use Rattle.cept_control.specs.inside.Taking.{CanTake};
ghost use Rattle.cept_profile.specs.Control.{control_with, effect};
ghost use Rattle.cept_profile.specs.Markers.{effect_of_marker, run_after, step_after};

use crate::control::Control;
use crate::graphic::columns_of_size;
use arrayvec::ArrayVec;
use cept_codes::{C1Set, Cell, Command, Marker, Stroke, What};

/// Markers under the serial set, the C1 set, and the erasing of the end of a row.
impl Control {
    pub(crate) fn designate_c1(&mut self, set: C1Set)
        ensures { self.new ≡ (effect self.old (Command.DesignateC1 set)).0 }
    {
        self.working.c1 = set;
        self.end_run();
    }

    pub(crate) fn cancel(&mut self, strokes: &mut ArrayVec<Stroke, 128>)
        requires { CanTake Command.Cancel strokes.old.items }
        ensures state { self.new ≡ (effect self.old Command.Cancel).0 }
        ensures strokes { strokes.new.items ≡ (effect self.old Command.Cancel).1 }
    {
        strokes.push(Stroke::Erase(self.working.row, self.working.column));
    }

    /// Leaves a marker at the position, which moves on by one column.
    #[inline(always)]
    pub(crate) fn leave(&mut self, marker: Marker, strokes: &mut ArrayVec<Stroke, 128>)
        requires room { length strokes.old.items + 2 ≤ 128 }
        ensures state { self.new ≡ control_with self.old (effect_of_marker self.old marker).0 }
        ensures strokes { strokes.new.items
            ≡ strokes.old.items ++ (effect_of_marker self.old marker).1 }
    {
        let run = run_after(marker, self.working.run);
        let step = step_after(marker, self.working.step);
        let cell = Cell {
            what: What::Marker(marker),
            protected: self.working.protect,
        };
        strokes.push(Stroke::Put(self.active(), cell));
        self.move_on(1, strokes);
        self.working.run = run;
        self.working.step = step;
    }
}

/// Whether left bytes are mosaics after a marker.
fn run_after(marker: Marker, run: bool) -> bool
    ensures { result ≡ run_after marker run }
{
    match marker {
        Marker::Mosaic(_) => true,
        Marker::Alpha(_) => false,
        _ => run,
    }
}

/// How far signs move on after a marker.
fn step_after(marker: Marker, step: u8) -> u8
    requires step { (step ≡ 1) ⊎ (step ≡ 2) }
    ensures step { result ≡ step_after marker step }
    ensures one_or_two { (result ≡ 1) ⊎ (result ≡ 2) }
{
    match marker {
        Marker::Size(size) => columns_of_size(size),
        _ => step,
    }
}
