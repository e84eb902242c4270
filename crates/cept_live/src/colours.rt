//! The colours in force, in a record whose fields are numbers alone.
ghost use Rattle.std.specs.Prelude.{◌≡◌};
ghost use Rattle.cept_live.specs.Colours.{colour_entries, paint_entries};

use crate::notice::{Colour, colour_of};
use cept_repaint::Screen;

/// The colours of the 32 entries of the colour table, and the entries, 0 to 31, that the four of the
/// DCLUT name.
#[repr(C)]
#[derive(Clone, Copy, Debug, PartialEq, Eq)]
pub struct ColourEntries {
    pub entries: [Colour; 32],
    pub dclut: [u8; 4],
}

/// The colours of all entries.
fn colours_of(screen: &Screen) -> [Colour; 32]
    ensures { result ≡ paint_entries screen.now.page.paints }
{
    let mut colours = [colour_of(screen.colour(0)); 32];
    for i in 0..32u8 {
        colours[usize::from(i)] = colour_of(screen.colour(i));
    }
    colours
}

impl ColourEntries {
    /// Those of a screen.
    pub(crate) fn of(screen: &Screen) -> ColourEntries
        ensures { result ≡ colour_entries screen.now.page }
    {
        ColourEntries {
            entries: colours_of(screen),
            dclut: [
                screen.dclut(0),
                screen.dclut(1),
                screen.dclut(2),
                screen.dclut(3),
            ],
        }
    }
}
