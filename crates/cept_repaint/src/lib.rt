//! The screen: it applies commands to a page and its control, marks the places whose look changes
//! and paints them on a glass. It knows no bytes and keeps no history.
#![tactic(auto)]

mod array_glass;
mod glass;
mod grid_glass;
mod law;
mod moved_edges;
mod painting;
mod screen;
mod shown;
mod tape_glass;

pub use array_glass::ArrayGlass;
pub use cept_delta::Delta;
pub use cept_redraw::Marks;
pub use glass::Glass;
pub use grid_glass::GridGlass;
pub use law::{commands_after_a_history, commands_after_others};
pub use screen::Screen;
pub use shown::shown_look;
pub use tape_glass::TapeGlass;
