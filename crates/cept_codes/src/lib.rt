//! The values of Bildschirmtext, CEPT profile 1: positions, glyphs, attributes, cells, looks,
//! commands, items and strokes, with their ranges and their equality. It knows no byte stream, no
//! state and no screen.
#![tactic(auto)]

mod attribute;
mod cell;
mod command;
mod glyph;
mod item;
mod law;
mod line_reason;
mod look;
mod memory;
mod position;
mod stroke;

pub use attribute::{Attr, Flash, Full, Pen, Size};
pub use cell::{Cell, Marker, RowCells, What};
pub use command::{C1Set, Command, Form, Up};
pub use glyph::{Glyph, Read, SetId};
pub use item::{Item, Reason, Said};
pub use law::{
    cells_compare_by_their_fields, commands_compare_by_their_fields, constants_are_the_words,
    constants_are_valid, lists_are_by_index, lists_are_made_in_turn, looks_compare_by_their_fields,
    out_of_memory_is_one, pens_compare_by_their_fields, places_compare_by_row_and_column,
    reading_order, strokes_compare_by_their_fields, tables_are_by_place, tables_are_by_row,
    tables_are_made_in_turn,
};
pub use line_reason::LineReason;
pub use look::{Inks, Look, Paint, Part, Pattern, Rgb, Shape};
pub use memory::NoMemory;
pub use position::{Column, Pos, Row};
pub use stroke::Stroke;
