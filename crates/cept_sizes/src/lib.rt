//! Which part of a sign each place of a row shows. It knows no cells, no looks and no history.
#![tactic(auto)]

mod part;
mod row;

pub use cept_codes::Part;
pub use part::{below, is_single, origin_there, to_the_right};
pub use row::{Parts, Wants, tile_row};
