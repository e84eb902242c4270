//! The generated page of a number, to measure by: its bytes piece by piece, and the laws of what
//! they read as. It knows no parser that runs and no screen.
#![tactic(auto)]

mod draws;
mod generator;
mod law;
mod units;

pub use generator::Generator;
pub use law::{generated_pages_are_read, generated_pages_are_short};
pub use units::Piece;
