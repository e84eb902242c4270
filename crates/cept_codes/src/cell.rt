use crate::attribute::{Flash, Pen, Size};
use crate::glyph::Glyph;

/// A serial attribute that stands in a cell and acts on those after it. Colours are entries 0 to
/// 31.
#[derive(Clone, Copy, Debug, PartialEq, Eq)]
pub enum Marker {
    Alpha(u8),
    Mosaic(u8),
    BlackBack,
    NewBack,
    Hold,
    Release,
    Flash(Flash),
    Conceal(bool),
    Lined(bool),
    Boxed(bool),
    Size(Size),
}

/// What was written into a cell: nothing, a sign under the serial set, a sign with its own
/// attributes under the parallel set, or a marker.
#[derive(Clone, Copy, Debug, PartialEq, Eq)]
pub enum What {
    Blank,
    Serial(Glyph),
    Parallel(Glyph, Pen),
    Marker(Marker),
}

/// A cell of the page, and whether writing and erasing leave it as it is.
#[derive(Clone, Copy, Debug, PartialEq, Eq)]
pub struct Cell {
    pub what: What,
    pub protected: bool,
}

/// The 40 cells of a row, from the left.
#[derive(Clone, Copy, Debug, PartialEq, Eq)]
pub struct RowCells {
    pub cells: [Cell; 40],
}

impl Cell {
    /// The cell into which nothing is written, and which is free.
    pub const BLANK: Cell = Cell {
        what: What::Blank,
        protected: false,
    };
}
