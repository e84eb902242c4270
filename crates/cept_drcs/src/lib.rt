//! Patterns of downloaded characters: those that are defined, and one as far as its bytes are read.
//! It knows no stream, no cells and no screen.
#![tactic(auto)]

mod drawing;
mod law;
mod lines;
mod loader;
mod patterns;
mod strips;
mod words;

pub use law::{
    beginnings_of_patterns_are_patterns, bytes_one_by_one_give_the_pattern,
    full_states_take_no_byte, numbers_in_words, patterns_are_valid, patterns_begin_with_30,
    patterns_grow_where_a_byte_fits, patterns_have_at_most_100_bytes, pixels_are_bits_of_lines,
};
pub use loader::Loader;
pub use patterns::Patterns;
