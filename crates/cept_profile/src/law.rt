//! The laws that the definitions of the profile obey, each the contract of a function with an empty
//! body.
mod accents;
mod carried_rows;
mod codes_of_sets;
mod control_settings;
mod first_grid;
mod last_said;
mod looks_in_rows;
mod motions;
mod names_of_rows;
mod old_values;
mod one_more;
mod painting;
mod protected_cells;
mod reach;
mod repeated_signs;
mod rows_from_above;
mod serial_rows;
mod tiling;
mod validity;

pub use accents::{accents_wait, single_shifts_wait};
pub use carried_rows::attributes_go_with_carried_rows;
pub use codes_of_sets::codes_give_signs_or_accents;
pub use control_settings::{
    closed_services_are_left_out, rows_are_those_of_the_last_format, settings_look_back,
};
pub use first_grid::{clearing_blanks_the_cells, the_first_grid};
pub use last_said::attributes_look_back;
pub use looks_in_rows::{looks_depend_on_cells_to_the_left, the_page_and_the_edges_are_seen};
pub use motions::motions_go_round_the_places;
pub use names_of_rows::{looks_show_the_parts, names_come_from_above_or_the_left, the_first_names};
pub use old_values::{
    noted_strokes_leave_what_is_unwound_to, nothing_noted_unwinds_nothing,
    noting_leaves_what_is_unwound_to,
};
pub use one_more::{looking_back_is_drawing, one_more_command, one_more_command_by_parts};
pub use painting::{each_command_is_shown, marked_places_in_order, painting_the_changes};
pub use protected_cells::protection;
pub use reach::{
    rows_come_with_their_cells, rows_come_with_their_parts_and_names,
    rows_that_are_not_reached_keep_their_looks, rows_that_do_not_move,
    rows_that_strokes_do_not_reach_keep_their_looks,
};
pub use repeated_signs::copies_are_written_in_turn;
pub use rows_from_above::{
    looks_come_from_above_or_the_left, rows_of_single_size_cover_nothing,
    rows_stay_under_what_covers_them, the_parts_of_a_core_are_the_tiled_ones,
};
pub use serial_rows::{
    cells_to_the_right_count_for_nothing, one_more_cell, serial_attributes_are_valid,
    the_nearest_marker_is_in_force, without_markers,
};
pub use tiling::{exactly_one_row_is_tiled, exactly_one_table_is_tiled, parts_are_valid};
pub use validity::{looks_are_valid, strokes_are_valid, validity_is_kept};
