//! Control: what each command makes of the state beside the page, and the strokes that it makes. It
//! knows no bytes but those of its own state, sees no cell and no look, and keeps no history.
#![tactic(auto)]

mod area;
mod bytes;
mod colour;
mod control;
mod edges;
mod graphic;
mod marker;
mod motion;
pub mod numbers;
mod pen;
mod service;
mod shift;
mod working;

pub use bytes::MOST_BYTES;
pub use cept_codes::Stroke;
pub use control::Control;
pub use edges::Edges;
pub use graphic::PutCell;
