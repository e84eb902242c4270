ghost use Rattle.std.specs.Prelude.{◌≡◌, ◌≤◌, [], ◌∷◌, if◌then◌else◌};
ghost use Rattle.cept_control.specs.inside.Taking.{CanTake};
ghost use Rattle.cept_profile.specs.Control.{effect};

use crate::control::Control;
use crate::pen::c1_function;
use arrayvec::ArrayVec;
use cept_codes::{Command, Paint, Pattern, Rgb, Stroke};

/// The colour table, what is drawn of the active row and of the screen as a whole, and patterns.
impl Control {
    pub(crate) fn colour_table(&mut self, table: u8)
        requires { table ≤ 3 }
        ensures { self.new ≡ (effect self.old (Command.Table table)).0 }
    {
        self.working.table = table;
    }

    /// An attribute of the whole screen, by the parallel meaning of its code.
    pub(crate) fn full_screen(&self, n: u8, strokes: &mut ArrayVec<Stroke, 128>)
        requires { CanTake (Command.FullScreen n) strokes.old.items }
        ensures { strokes.new.items ≡ (effect self.now (Command.FullScreen n)).1 }
    {
        if let Some((attribute, _)) = c1_function(self.working.table, n) {
            strokes.push(Stroke::ScreenAttr(attribute));
        }
    }

    /// An attribute of the active row, by the parallel meaning of its code.
    pub(crate) fn full_row(&self, n: u8, strokes: &mut ArrayVec<Stroke, 128>)
        requires { CanTake (Command.FullRow n) strokes.old.items }
        ensures { strokes.new.items ≡ (effect self.now (Command.FullRow n)).1 }
    {
        if let Some((attribute, _)) = c1_function(self.working.table, n) {
            strokes.push(Stroke::RowAttr(self.working.row, attribute));
        }
    }

    pub(crate) fn colour_defaults(&self, strokes: &mut ArrayVec<Stroke, 128>)
        requires { CanTake Command.ColourDefaults strokes.old.items }
        ensures { strokes.new.items ≡ (effect self.now Command.ColourDefaults).1 }
    {
        strokes.push(Stroke::ColourDefaults);
    }

    pub(crate) fn colour_entry(&self, i: u8, colour: Rgb, strokes: &mut ArrayVec<Stroke, 128>)
        requires { CanTake (Command.Entry i colour) strokes.old.items }
        ensures { strokes.new.items ≡ (effect self.now (Command.Entry i colour)).1 }
    {
        strokes.push(Stroke::Colour(i, Paint::Ink(colour)));
    }

    pub(crate) fn dclut_entry(&self, i: u8, entry: u8, strokes: &mut ArrayVec<Stroke, 128>)
        requires { CanTake (Command.Dclut i entry) strokes.old.items }
        ensures { strokes.new.items ≡ (effect self.now (Command.Dclut i entry)).1 }
    {
        strokes.push(Stroke::Dclut(i, entry));
    }
    /// A header of downloaded patterns, which deletes all of them or none.
    pub(crate) fn drcs_header(&self, delete: bool, strokes: &mut ArrayVec<Stroke, 128>)
        requires { strokes.old.items ≡ [] }
        ensures { strokes.new.items ≡ (if delete then Stroke.DrcsClear ∷ [] else []) }
    {
        if delete {
            strokes.push(Stroke::DrcsClear);
        }
    }

    pub(crate) fn drcs_pattern(
        &self,
        code: u8,
        pattern: &Pattern,
        strokes: &mut ArrayVec<Stroke, 128>,
    )
        requires { CanTake (Command.DrcsPattern code pattern.now) strokes.old.items }
        ensures { strokes.new.items ≡ (effect self.now (Command.DrcsPattern code pattern.now)).1 }
    {
        strokes.push(Stroke::Drcs(code, *pattern));
    }
}
