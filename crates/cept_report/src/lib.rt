//! The texts of a report: the lines of changes, refusals, counts and cells, and the screen, each
//! put exactly. It knows no bytes of a page and no history.
#![tactic(auto)]

mod ending;
mod gathering;
mod line;
mod lines;
mod look;
mod paint;
mod pattern;
mod phases;
mod put;
mod signs;

pub use line::{Line, add_byte, add_number, add_small, add_text, hex_digit};
pub use lines::add_reason_name;
pub use look::letter_of_set;
pub use phases::put_phases;
pub use put::{
    put_cells, put_changes, put_changes_if, put_check, put_line, put_load, put_nothing,
    put_refusal, put_screen, put_script_fault,
};
