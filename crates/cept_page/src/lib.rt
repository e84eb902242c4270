//! The page: its cells, the attributes of its rows and of its screen, its colour entries, the DCLUT and its patterns, as
//! strokes draw it. It resolves no look and knows no control.
#![tactic(auto)]

mod flags_anew;
mod law;
mod page;
mod page_parts;
mod row_flags;
mod shifting;

pub use law::{pages_are_drawn_part_by_part, strokes_are_noted_in_turn};
pub use page::{Page, Pens};
pub use shifting::shifted_rows;
