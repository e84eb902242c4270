//! The attributes of cells: each class by what was set for the sign, its row or the screen. It
//! knows no page, no paints of colour entries and no history.
#![tactic(auto)]

mod attributes;
mod serial;

pub use attributes::cascade;
pub use serial::{Influence, Marked, RowSerial, serial_cells, serial_row};
