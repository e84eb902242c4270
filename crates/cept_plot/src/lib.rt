//! A page as a field of 80 by 72 points, which block mosaics show, and drawings in it. It knows no looks and no bytes of
//! a page.
#![tactic(auto)]

mod coordinate;
mod drawing;
mod field;
mod figure;
mod law;
mod line;
mod paint;
mod word;

pub use drawing::{DrawFault, Drawing};
pub use field::Field;
pub use figure::{Figure, Point};
pub use law::{a_set_of_points_is_drawn, the_points_of_the_field_decide};
pub use paint::paint_field;
