//! A page with the looks that are kept of it: strokes are drawn on it, or old values put back, and exactly those
//! looks are resolved anew that may have changed, and marked where they did. It knows no commands, glasses or
//! histories.
//!
//! Which looks are resolved depends on the strokes:
//!
//! - they change which rows are last: all rows in reach (`redraw_rows`)
//! - there are none: nothing
//! - one cell is put
//!   - every cell of its row stands alone: the cell (`refresh_place`)
//!   - else: its row, from its place on, and the rows below (`refresh_put`)
//! - all define something anew: of each row that names it (`refresh_redefined`)
//!   - every cell of the row stands alone: the places that name it (`refresh_places`)
//!   - else: the whole row, and the rows below
//! - any others: all rows in reach (`redraw_rows`)
//!   - one moved rows: their looks move along (`move_rows`)
//!   - none did: the looks stay in their rows (`refresh_rows`)
//!
//! A cell *stands alone* where its look depends on no other. *The rows below* are resolved only as long as each is
//! covered from above in another way than before, and *all rows in reach* are found in one walk from the top.
#![tactic(auto)]

mod altered_rows;
mod compared_rows;
mod followed_rows;
mod kept_names;
mod kept_rows;
mod law;
mod marks;
mod moved_rows;
mod passed_rows;
mod picture;
mod redefined_places;
mod redefined_rows;
mod redraw;
mod refreshed_rows;
mod resolved_rows;
mod restoring;

pub use kept_names::KeptNames;
pub use kept_rows::KeptRows;
pub use law::{
    looks_are_seen_at_their_places, looks_that_stay_are_not_marked,
    what_is_kept_stands_on_page_and_edges,
};
pub use marks::Marks;
pub use picture::Picture;
