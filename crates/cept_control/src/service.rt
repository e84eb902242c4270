ghost use Rattle.std.specs.Prelude.{◌≡◌, ◌≤◌, ◌⊎◌};
ghost use Rattle.cept_control.specs.inside.Taking.{CanTake};
ghost use Rattle.cept_profile.specs.Control.{control_with, effect, working_by_default};

use crate::control::Control;
use crate::working::Working;
use arrayvec::ArrayVec;
use cept_codes::{C1Set, Command, Stroke};

/// The format, the revision of the rules, the defaults, and the break of a service.
impl Control {
    pub(crate) fn format(&mut self, rows: u8, wrap: bool, strokes: &mut ArrayVec<Stroke, 128>)
        requires { CanTake (Command.Format rows wrap) strokes.old.items }
        ensures state { self.new ≡ (effect self.old (Command.Format rows wrap)).0 }
        ensures strokes { strokes.new.items ≡ (effect self.old (Command.Format rows wrap)).1 }
    {
        strokes.push(Stroke::Format(rows));
        strokes.push(Stroke::Wipe);
        self.home();
        self.rows = rows;
        self.wrap = wrap;
    }

    /// A revision of the rules is chosen. Seldom sent, and so out of the way of the dispatch.
    #[inline(never)]
    pub(crate) fn choose_revision(&mut self, revision: u8)
        requires { (revision ≡ 1) ⊎ (revision ≡ 2) }
        ensures { self.new ≡ (effect self.old (Command.Revision revision)).0 }
    {
        self.revision = revision;
    }

    /// Defaults of control: the position, the format and what a service keeps stay.
    pub(crate) fn control_defaults(&mut self, set: C1Set)
        ensures { self.new ≡ control_with self.old (working_by_default set self.old.working) }
    {
        self.working = Working {
            row: self.working.row,
            column: self.working.column,
            c1: set,
            ..Working::new()
        };
    }

    /// Defaults of all: control and page are as at the start, under a C1 set.
    pub(crate) fn full_defaults(&mut self, set: C1Set, strokes: &mut ArrayVec<Stroke, 128>)
        requires { CanTake (Command.FullDefaults set) strokes.old.items }
        ensures state { self.new ≡ (effect self.old (Command.FullDefaults set)).0 }
        ensures strokes { strokes.new.items ≡ (effect self.old (Command.FullDefaults set)).1 }
    {
        strokes.push(Stroke::Format(24));
        strokes.push(Stroke::Wipe);
        strokes.push(Stroke::ScreenClear);
        strokes.push(Stroke::ColourDefaults);
        strokes.push(Stroke::DrcsClear);
        *self = Control::new();
        self.working.c1 = set;
    }

    /// A service breaks in at a row: what was before the first break is kept until its end.
    pub(crate) fn service_break(&mut self, row: u8)
        requires row { (1 ≤ row) × (row ≤ 24) }
        ensures { self.new ≡ (effect self.old (Command.ServiceBreak row)).0 }
    {
        if self.kept.is_none() {
            self.kept = Some(self.working);
        }
        self.control_defaults(C1Set::Parallel);
        self.move_to(row.min(self.rows), 1);
    }

    /// A service ends: what was before it comes back.
    pub(crate) fn service_end(&mut self)
        ensures { self.new ≡ (effect self.old Command.ServiceEnd).0 }
    {
        if let Some(kept) = self.kept {
            self.working = Working {
                row: kept.row.min(self.rows),
                ..kept
            };
            self.kept = None;
        }
    }
}
