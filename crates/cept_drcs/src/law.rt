//! The laws that the definitions of patterns obey, each the contract of a function with an empty
//! body.
mod bits;
mod reading;
mod units;

pub use bits::numbers_in_words;
pub use reading::{bytes_one_by_one_give_the_pattern, full_states_take_no_byte};
pub use units::{
    beginnings_of_patterns_are_patterns, patterns_are_valid, patterns_begin_with_30,
    patterns_grow_where_a_byte_fits, patterns_have_at_most_100_bytes, pixels_are_bits_of_lines,
};
