//! Rows of looks in little space, each resolved from its own cells and the looks of the row above
//! it. It knows no pages, no control and no histories.
#![tactic(auto)]

mod cell_look;
mod colours;
mod drawing;
mod naming;
mod places;
mod resolving;
mod row_looks;
mod small_look;
mod source;
mod walk;

pub use naming::{RowNames, name_cells, name_row};
pub use resolving::{
    places_show_what_is_beside_them, resolve_cells, resolve_cells_between, resolve_row,
    rows_show_what_stands_to_the_left,
};
pub use row_looks::{Differences, RowLooks};
pub use source::RowSource;
