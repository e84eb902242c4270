//! A screen whose signs flash: its looks at each of six phases, and which places change from one phase to the next. It
//! knows no commands, no bytes and no clock.
#![tactic(auto)]

mod blink;
mod phases;

pub use blink::Blink;
pub use phases::{look_at_phase, next_phase};
