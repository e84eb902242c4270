//! Old values of a screen's state, by their locations: noted before something changes, put back, and exchanged
//! with those of a page. It sees no look, and makes no strokes.
#![tactic(auto)]

mod delta;
mod exchanging;
mod law;
mod noter;
mod unwinding;

pub use delta::Delta;
pub use law::{exchanged_values_lead_back, where_none_is_noted};
pub use noter::{NoNotes, Noter, PageBefore};
pub use unwinding::unwind_page;
