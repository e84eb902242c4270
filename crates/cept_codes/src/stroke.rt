use crate::attribute::Attr;
use crate::cell::Cell;
use crate::command::Up;
use crate::look::{Paint, Pattern};
use crate::position::Pos;

/// One change that a command makes to the page.
#[derive(Clone, Copy, Debug, PartialEq, Eq)]
pub enum Stroke {
    /// The cell is written, unless the cell there is protected.
    Put(Pos, Cell),
    /// The row's cells from this column on are blanked, but for protected ones.
    Erase(u8, u8),
    /// All cells become blank and unprotected, and all attributes of rows are unset.
    Wipe,
    /// The cells of the rows from the first to the second move by one row, and the row that comes
    /// free is blank. The attributes of the rows stay.
    Shift(u8, u8, Up),
    /// The same, and the attributes of the rows move too. Those of the row that comes free are
    /// unset.
    Carry(u8, u8, Up),
    /// An attribute of the row is set.
    RowAttr(u8, Attr),
    /// An attribute of the screen is set.
    ScreenAttr(Attr),
    /// All attributes of the screen are unset.
    ScreenClear,
    /// The colour entry becomes this paint.
    Colour(u8, Paint),
    /// The DCLUT entry becomes this colour entry.
    Dclut(u8, u8),
    /// All colour entries and the DCLUT become their defaults.
    ColourDefaults,
    /// All patterns are deleted.
    DrcsClear,
    /// The pattern of this code is set.
    Drcs(u8, Pattern),
    /// The page has so many rows.
    Format(u8),
}

/// What fills the unused room of a list of strokes. Nothing is said of it.
impl Default for Stroke {
    fn default() -> Stroke {
        Stroke::Wipe
    }
}
