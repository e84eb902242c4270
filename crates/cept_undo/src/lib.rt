//! Edits of a screen that can be undone and redone. It knows no bytes, no scripts and no lines.
#![tactic(auto)]

mod rings;
mod undo;

pub use undo::{Redone, Undo, Undone};
