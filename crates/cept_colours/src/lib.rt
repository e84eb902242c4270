//! Colours: the paints of the 32 colour entries, and the colour entries that the DCLUT names. It
//! knows no cells, no pens and no patterns.
#![tactic(auto)]

mod colours;
mod defaults;

pub use colours::Colours;
