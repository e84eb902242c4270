//! Which slot holds which row. It knows no cells, no looks and no histories.
#![tactic(auto)]

mod law;
mod row_order;

pub use law::{
    rows_stand_in_slots, rows_stay_in_slots, slots_hold_one_row, turned_rows_are_shifted_rows,
};
pub use row_order::RowOrder;
