//! The laws of written pages, each the contract of a function that computes nothing.
mod chains;
mod compact;
mod pens;

pub use chains::chains_cut_where_none_goes_on;
pub use compact::{
    compact_pages_are_restored, compact_pages_are_spelled, compact_parts_are_written_in_turn,
    compact_texts_are_no_longer_than_plain_ones, compact_texts_bring_pages_back,
};
pub use pens::attributes_make_the_pen;
