//! The meaning of the profile: control, strokes, cells, looks and changes after any list of
//! commands, and the laws that these definitions obey. It has no code that computes a page and
//! knows no bytes.
#![tactic(auto)]

mod law;

pub use law::{
    accents_wait, attributes_go_with_carried_rows, attributes_look_back,
    cells_to_the_right_count_for_nothing, clearing_blanks_the_cells, closed_services_are_left_out,
    codes_give_signs_or_accents, copies_are_written_in_turn, each_command_is_shown,
    exactly_one_row_is_tiled, exactly_one_table_is_tiled, looking_back_is_drawing, looks_are_valid,
    looks_come_from_above_or_the_left, looks_depend_on_cells_to_the_left, looks_show_the_parts,
    marked_places_in_order, motions_go_round_the_places, names_come_from_above_or_the_left,
    noted_strokes_leave_what_is_unwound_to, nothing_noted_unwinds_nothing,
    noting_leaves_what_is_unwound_to, one_more_cell, one_more_command, one_more_command_by_parts,
    painting_the_changes, parts_are_valid, protection, rows_are_those_of_the_last_format,
    rows_come_with_their_cells, rows_come_with_their_parts_and_names,
    rows_of_single_size_cover_nothing, rows_stay_under_what_covers_them,
    rows_that_are_not_reached_keep_their_looks, rows_that_do_not_move,
    rows_that_strokes_do_not_reach_keep_their_looks, serial_attributes_are_valid,
    settings_look_back, single_shifts_wait, strokes_are_valid, the_first_grid, the_first_names,
    the_nearest_marker_is_in_force, the_page_and_the_edges_are_seen,
    the_parts_of_a_core_are_the_tiled_ones, validity_is_kept, without_markers,
};
