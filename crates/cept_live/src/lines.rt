//! What becomes of a line of a script that is made on a page.
use cept_codes::LineReason;

/// How many notices a line may need: one for each place.
pub const ROOM_FOR_A_LINE: usize = 960;

/// How many bytes a line has at most: as many as a script.
pub(crate) const LONGEST_LINE: usize = 1 << 20;

/// What became of a line.
#[derive(Clone, Copy, Debug, PartialEq, Eq)]
pub enum Lined {
    /// An edit was made, undone or redone, and so many notices were put.
    Made(usize),
    /// There is nothing to make: the line is empty or a comment, or it is an undo and no edit can be
    /// undone, or a redo and none can be redone.
    Nothing,
    /// The page has not ended, or the list has room for fewer notices than a line may need.
    Early,
    /// The line is outside the grammar of scripts, for this reason.
    Bad(LineReason),
    /// There is no memory for the first edit.
    NoMemory,
    /// The line has more than 2^20 bytes.
    TooLong,
}
