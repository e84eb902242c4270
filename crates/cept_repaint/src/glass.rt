ghost use Rattle.std.specs.Prelude.{◌≡◌, length};
ghost use Rattle.cept_profile.specs.Changes.{look_at};
ghost use Rattle.cept_profile.specs.Look.{looks_of};
ghost use Rattle.cept_profile.specs.State.{core_of};
ghost use Rattle.cept_profile.specs.Valid.{IsValidGrid};
ghost use Rattle.cept_repaint.specs.GlassState.{GlassState, Paints, PaintsRow};

use crate::screen::Screen;
use cept_codes::{Column, Look, Pos, Row};

/// Something that shows the looks painted on it.
pub trait Glass {
    /// The look at each place, and the list of all paints, where it is told.
    ghost state: { Self → GlassState };

    /// Paints the screen's look at a place. No other place changes.
    fn paint(&mut self, at: Pos, screen: &Screen)
        ensures { Paints (state self.old) at (look_at (looks_of (core_of screen.now)) at)
            (state self.new) };

    /// Paints the screen's looks in the flagged columns of a row, from the left. No other place
    /// changes.
    fn paint_row(&mut self, row: Row, flags: &[bool], screen: &Screen)
        requires columns { length flags.now ≡ 40 }
        ensures { PaintsRow (state self.old) flags.now row (looks_of (core_of screen.now))
            (state self.new) }
    {
        for k in 0..40u8 {
            if flags[usize::from(k)] {
                self.paint(Pos::at(row, Column::numbered(k + 1)), screen);
            }
        }
    }

    /// The look that is shown at a place.
    fn shown(&self, at: Pos) -> Look
        ensures look { result ≡ look_at (state self.now).grid at };

    /// Every place shows a valid look.
    ghost valid: { (glass : Self) → IsValidGrid (state glass).grid };
}
