ghost use Rattle.std.specs.Prelude.{◌≡◌, ◌+◌, ◌≤◌, ◌<◌};
ghost use Rattle.cept_codes.specs.Cell.{IsValidCell};
ghost use Rattle.cept_codes.specs.Place.{place_of};
ghost use Rattle.cept_outside.specs.SinkState.{PutsText};
ghost use Rattle.cept_parser.specs.Spelling.{spellings};
ghost use Rattle.cept_writer.specs.PageCommands.{cell_numbered};
ghost use Rattle.cept_writer.specs.SegmentPieces.{copies_after, link_to, piece_with, pieces_below};

use crate::link::Link;
use crate::put::{Room, put_commands_in};
use crate::segments::{add_piece, link};
use cept_codes::{Cell, Pos};
use cept_outside::{Sink, WriteFault};
use cept_repaint::Screen;

/// Puts the piece of the cell with this number.
fn put_piece<T: Sink>(
    sink: &mut T,
    room: &mut Room,
    before: Link,
    copies: u8,
    n: u16,
    cell: &Cell,
    after: Link,
) -> Result<(), WriteFault>
    requires place { n < 960 }
    requires few { copies ≤ 63 }
    requires valid { IsValidCell cell.now }
    ensures { let text =
        spellings (piece_with before copies (record {
          place = place_of n;
          cell = cell.now;
        }) after cell.now.what) in
        PutsText (T.state sink.old) text result (T.state sink.new) }
{
    let at = Pos::from_number(n).unwrap();
    room.list.clear();
    add_piece(&mut room.list, before, copies, at, cell, after);
    put_commands_in(sink, &mut room.text, room.list.as_slice())
}

/// The cell after the one with this number, and how it goes on from it; none does after the last.
fn next_cell(screen: &Screen, n: u16, cell: &Cell) -> (Cell, Link)
    requires place { n < 960 }
    requires is { cell.now ≡ cell_numbered screen.now.page.cells n }
    requires valid { IsValidCell cell.now }
    ensures cell { n < 959 → result.0 ≡ cell_numbered screen.now.page.cells (n + 1) }
    ensures link { result.1 ≡ link_to screen.now.page.cells (n + 1) }
    ensures valid { IsValidCell result.0 }
{
    if n < 959 {
        let next = screen.cell(Pos::from_number(n + 1).unwrap());
        let on = link(n, cell, &next);
        (next, on)
    } else {
        (*cell, Link::Apart)
    }
}

/// How many equal signs come before the next cell.
fn copies_after(copies: u8, after: Link) -> u8
    requires { copies < 63 }
    ensures { result ≡ copies_after copies after }
{
    match after {
        Link::Equal => copies + 1,
        Link::Apart | Link::Segment | Link::Set => 0,
    }
}

/// Puts all cells in segments, in reading order.
pub fn put_segments<T: Sink>(sink: &mut T, screen: &Screen) -> Result<(), WriteFault>
    ensures { let text = spellings (pieces_below screen.now.page.cells 960) in
        PutsText (T.state sink.old) text result (T.state sink.new) }
{
    let mut cell = screen.cell(Pos::from_number(0).unwrap());
    let mut before = Link::Apart;
    let mut copies = 0u8;
    let mut room = Room::new();
    for n in 0..960u16 {
        let (next, after) = next_cell(screen, n, &cell);
        put_piece(sink, &mut room, before, copies, n, &cell, after)?;
        copies = copies_after(copies, after);
        before = after;
        cell = next;
    }
    Ok(())
}
