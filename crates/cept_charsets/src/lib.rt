//! The sets of graphic signs: what a graphic byte gives (ISO 2022), and how a sign is shown in
//! Unicode. It knows no control function, no cell and no byte stream.
#![tactic(auto)]

mod laws;
mod rendition;
mod sets;
mod supplementary;

pub use cept_codes::Read;
pub use laws::{
    designating_leaves_the_other_sets, runs_take_left_bytes, sets_stay_valid,
    single_shifts_are_spent,
};
pub use rendition::{Text4, unicode_of};
pub use sets::Sets;
