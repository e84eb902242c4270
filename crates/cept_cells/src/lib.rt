//! The cells of the screen, and what strokes make of them. It knows no pens, no looks and no
//! histories.
#![tactic(auto)]

mod grid;

pub use grid::Grid;
