//! Editing scripts, their lines and the commands of each; and the editor, which makes the edits on a
//! screen, undoes and redoes them. It knows no files, and of a page its commands alone.
#![tactic(auto)]

mod brief;
mod commands;
mod decoding;
mod digits;
mod editor;
mod law;
mod line;
mod number;
mod numbered;
mod order;
mod places;
mod script;
mod table;
mod undo_redo;

pub use commands::{Commands, Edit};
pub use editor::{Done, Editor};
pub use law::{
    changes_of_a_line_lead_to_its_end, each_event_is_shown, edit_lines_by_their_states,
    edit_lines_go_on, edit_lines_lead_to_what_remains, events_are_made_in_turn,
    events_are_painted_in_turn, one_more_event_is_made, one_more_text_is_put,
    scripts_are_told_by_their_lines, texts_and_changes_in_order,
};
pub use line::read_line;
pub use script::{Script, ScriptFault};
pub use undo_redo::UndoRedo;
