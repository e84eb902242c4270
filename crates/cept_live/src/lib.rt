//! A decoder that is fed bytes as they come, and then edited line by line, and tells which places each
//! item or line changes, in records of one size. It makes no texts but a written page and a snapshot,
//! and knows no host and no clock.
#![tactic(auto)]

mod colours;
mod edits;
mod flashing;
mod law;
mod lines;
mod live;
mod notice;
mod parts;
mod restore;
mod snapshot;
mod state;
mod tell;
mod writing;

pub use colours::ColourEntries;
pub use law::{
    displays_show_what_is_told, lines_make_an_editor, lines_of_sayings, pieces_tell_the_same,
};
pub use lines::{Lined, ROOM_FOR_A_LINE};
pub use live::{Fed, Live, ROOM_FOR_A_BYTE, ROOM_FOR_A_PHASE};
pub use notice::{Colour, Notice, Pixels, Sign};
pub use state::{DecoderState, PenRecord, UNSET};
