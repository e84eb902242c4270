//! Bytes of the presentation layer to items: commands and refusals with their places. It gives no
//! command a meaning and knows no screen.
#![tactic(auto)]

mod bytes;
mod closed;
mod context;
mod controls;
mod csi;
mod escape;
mod fit;
pub mod laws;
mod parser;
mod pending;
mod reader;
mod runs;
pub mod spelling_laws;
mod units;

pub use closed::Closed;
pub use context::{ColourKind, Context, Mode, Outcome};
pub use parser::Parser;
