//! The lines of a listing, one for each item of a page: its place, its length, its name and its
//! parameters. It knows no bytes of a page, no screens and no histories.
#![tactic(auto)]

mod command;
mod item;
mod law;
mod names;
mod parameters;

pub use item::put_item;
pub use law::lines_are_short;
