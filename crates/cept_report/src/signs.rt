ghost use Rattle.std.specs.Prelude.{◌≡◌, ◌+◌, ◌≤◌};
ghost use Rattle.cept_codes.specs.Look.{IsValidLook, IsValidShape};
ghost use Rattle.cept_codes.specs.Place.{OnScreen};
ghost use Rattle.cept_report.specs.Room.{Adds, HasRoomFor};
ghost use Rattle.cept_report.specs.Screen.{look_sign, row_line, shape_sign};

use crate::line::{Line, add_byte, add_text};
use cept_charsets::unicode_of;
use cept_codes::{Look, Pos, Shape};
use cept_repaint::{Glass, shown_look};

#[tactic(auto, unfolding(crate::specs::Screen::shape_sign))]
fn add_shape_sign(line: &mut Line, shape: &Shape)
    requires room { HasRoomFor 3 line.old }
    requires valid { IsValidShape shape.now }
    ensures { Adds line.old 3 (shape_sign shape.now) line.new }
{
    match shape {
        Shape::Space => add_byte(line, b' '),
        Shape::Char(glyph) => add_text(line, unicode_of(*glyph).as_str().as_bytes()),
        Shape::Drcs(_, _) => add_text(line, "\u{25A1}".as_bytes()),
    }
}

#[tactic(auto, unfolding(crate::specs::Screen::look_sign))]
fn add_look_sign(line: &mut Line, look: &Look)
    requires room { HasRoomFor 3 line.old }
    requires valid { IsValidLook look.now }
    ensures { Adds line.old 3 (look_sign look.now) line.new }
{
    if look.conceal || look.dy > 0 || look.dx > 0 {
        add_byte(line, b' ');
    } else {
        add_shape_sign(line, &look.shape);
    }
}

/// The place in this row and column.
pub fn place(row: u8, column: u8) -> Pos
    requires { OnScreen row column }
    ensures { result ≡ record { row = row; column = column } }
{
    Pos::new(row, column).unwrap()
}

/// The signs of a row of the glass, and a line feed.
pub fn row_line<G: Glass>(glass: &G, row: u8) -> Line
    requires from_top { 1 ≤ row }
    requires to_bottom { row ≤ 24 }
    ensures { result.items ≡ row_line (G.state glass.now).grid row }
{
    let mut line = Line::new();
    for i in 0..40u8 {
        add_look_sign(&mut line, &shown_look(glass, place(row, i + 1)));
    }
    add_byte(&mut line, b'\n');
    line
}
