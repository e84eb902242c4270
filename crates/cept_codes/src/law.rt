//! Laws of the definitions: functions that do nothing, and whose clauses say what holds of the
//! words that clauses use.
mod constants;
mod equality;
mod lists;
mod places;
mod tables;

pub use constants::{constants_are_the_words, constants_are_valid};
pub use equality::{
    cells_compare_by_their_fields, commands_compare_by_their_fields, looks_compare_by_their_fields,
    out_of_memory_is_one, pens_compare_by_their_fields, places_compare_by_row_and_column,
    strokes_compare_by_their_fields,
};
pub use lists::{lists_are_by_index, lists_are_made_in_turn};
pub use places::reading_order;
pub use tables::{tables_are_by_place, tables_are_by_row, tables_are_made_in_turn};
