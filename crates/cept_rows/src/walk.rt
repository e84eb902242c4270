ghost use Rattle.std.specs.Prelude.{◌≡◌, ◌-◌};
ghost use Rattle.cept_codes.specs.declared.cell.What.TheVariants.{Marker as stands};
ghost use Rattle.cept_profile.specs.Serial.{row_in};
ghost use Rattle.cept_rows.specs.inside.Walk.{IsLedOver, IsWalk};

use crate::cell_look::{Brush, sign_held, sign_of_glyph, take_up};
use crate::small_look::{Sign, SmallLook};
use crate::source::RowSource;
use cept_attrs::{Influence, Marked};
use cept_codes::{Column, Marker, Size, What};

/// What is carried along a row: what its cells leave for those after them, the look of a space
/// there, and the pen that was taken up last.
#[derive(Clone, Copy)]
pub(crate) struct Walk {
    pub(crate) influence: Influence,
    pub(crate) space: SmallLook,
    pub(crate) brush: Brush,
}

/// What stands in a cell by itself, and the size in which it is to be shown.
#[derive(Clone, Copy)]
pub(crate) struct OwnLook {
    pub(crate) look: SmallLook,
    pub(crate) size: Size,
}

impl Walk {
    /// Before the first cell of a row.
    #[inline(always)]
    pub(crate) fn at_start(source: &RowSource) -> Walk
        ensures { IsWalk source.now 0 result }
    {
        source.valid_by_type();
        let influence = Influence::at_start(source.row_pen(), source.screen_pen());
        let brush = Brush::new(influence.full(), source);
        Walk {
            influence,
            space: brush.space,
            brush,
        }
    }

    /// Before a column of a row.
    pub(crate) fn before(column: Column, source: &RowSource) -> Walk
        ensures { IsWalk source.now (column - 1) result }
    {
        let mut walk = Walk::at_start(source);
        for passed in 1..column.number() {
            walk.pass(Column::numbered(passed), source);
        }
        walk
    }

    /// The look of what stands in a column by itself.
    #[inline(always)]
    pub(crate) fn look(&mut self, column: Column, source: &RowSource) -> OwnLook
        requires { IsWalk source.now (column - 1) self.old }
        ensures { IsLedOver source.now column result self.new }
    {
        match source.what(column) {
            What::Marker(marker) => self.look_of_marker(column, *marker, source),
            What::Blank => {
                source.pass(&self.influence, column);
                OwnLook {
                    look: self.space,
                    size: self.influence.full().size,
                }
            }
            What::Serial(glyph) => {
                source.pass(&self.influence, column);
                OwnLook {
                    look: SmallLook {
                        sign: sign_of_glyph(glyph, source),
                        ..self.space
                    },
                    size: self.influence.full().size,
                }
            }
            What::Parallel(glyph, pen) => {
                source.pass(&self.influence, column);
                take_up(&mut self.brush, pen, source);
                OwnLook {
                    look: SmallLook {
                        sign: sign_of_glyph(glyph, source),
                        ..self.brush.space
                    },
                    size: self.brush.size,
                }
            }
        }
    }

    /// The same of a marker.
    // A call of its own: the walk along a row keeps less at hand.
    #[inline(never)]
    fn look_of_marker(&mut self, column: Column, marker: Marker, source: &RowSource) -> OwnLook
        requires there { row_in source.now.cells column ≡ stands marker }
        requires walk { IsWalk source.now (column - 1) self.old }
        ensures { IsLedOver source.now column result self.new }
    {
        let space = self.space;
        let size = self.influence.full().size;
        let Marked { at_once, held } = source.mark(&mut self.influence, column, marker);
        self.space = source.small_with(Sign::NOTHING, self.influence.full());
        let sign = sign_held(held);
        if at_once {
            return OwnLook {
                look: SmallLook { sign, ..self.space },
                size: self.influence.full().size,
            };
        }
        OwnLook {
            look: SmallLook { sign, ..space },
            size,
        }
    }

    /// Passes a column whose place shows another sign.
    #[inline(always)]
    pub(crate) fn pass(&mut self, column: Column, source: &RowSource)
        requires { IsWalk source.now (column - 1) self.old }
        ensures { IsWalk source.now column self.new }
    {
        match source.what(column) {
            What::Marker(marker) => self.pass_marker(column, *marker, source),
            What::Blank | What::Serial(_) | What::Parallel(_, _) => {
                source.pass(&self.influence, column);
            }
        }
    }

    /// The same of a marker.
    #[inline(never)]
    fn pass_marker(&mut self, column: Column, marker: Marker, source: &RowSource)
        requires there { row_in source.now.cells column ≡ stands marker }
        requires walk { IsWalk source.now (column - 1) self.old }
        ensures { IsWalk source.now column self.new }
    {
        let _cell = source.mark(&mut self.influence, column, marker);
        self.space = source.small_with(Sign::NOTHING, self.influence.full());
    }
}
