//! Written pages: the commands that bring a core back on a reset decoder, and the bytes that spell
//! them, put into a sink. It knows no control and draws nothing.
#![tactic(auto)]

mod attributes;
mod cells;
mod colours;
mod last;
mod law;
mod link;
mod list;
mod page;
mod pattern;
mod patterns;
mod put;
mod segments;
mod spelling;
mod text;
mod walk;

pub use law::{
    attributes_make_the_pen, chains_cut_where_none_goes_on, compact_pages_are_restored,
    compact_pages_are_spelled, compact_parts_are_written_in_turn,
    compact_texts_are_no_longer_than_plain_ones, compact_texts_bring_pages_back,
};
pub use page::write_page;
