//! The run of the program as a call: it reads the words, a stored page and the commands in it, paints a
//! screen, and puts the report. It knows no real file, output or display.
#![tactic(auto)]

mod converting;
mod decoder;
mod edits;
mod generated;
pub mod laws;
mod page;
mod reporter;
pub mod run;
mod script;
mod target;
mod words;
