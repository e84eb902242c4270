//! The seven-bit form of a page: bytes for a path that carries seven bits, and back. It knows no
//! command, no screen and no file.
#![tactic(auto)]

mod from_seven;
mod law;
mod to_seven;

pub use from_seven::{FromSeven, Heard};
pub use law::{forms_go_on, seven_bits_say_the_same};
pub use to_seven::ToSeven;
