ghost use Rattle.std.specs.Prelude.{◌≤◌};
ghost use Rattle.cept_outside.specs.SinkState.{PutsText};
ghost use Rattle.cept_parser.specs.Spelling.{spellings};
ghost use Rattle.cept_profile.specs.PageParts.{row_pen_in};
ghost use Rattle.cept_profile.specs.State.{core_of};
ghost use Rattle.cept_writer.specs.CompactCommands.{page_text};
ghost use Rattle.cept_writer.specs.PageCommands.{area_commands, first_commands, implicit_commands};
ghost use Rattle.cept_writer.specs.PageCommands.{row_commands, rows_below, screen_commands};

use crate::attributes::add_pen;
use crate::colours::{put_colours, put_dclut};
use crate::law::compact_parts_are_written_in_turn;
use crate::list::{Commands, Reach};
use crate::patterns::put_patterns;
use crate::put::{put_commands, put_headed};
use crate::walk::put_segments;
use cept_codes::{C1Set, Command};
use cept_outside::{Sink, WriteFault};
use cept_repaint::Screen;

/// Puts a reset, the revision of the rules, where it is the second, and the format.
fn put_beginning<T: Sink>(sink: &mut T, screen: &Screen) -> Result<(), WriteFault>
    ensures { let text = spellings (first_commands (core_of screen.now)) in
        PutsText (T.state sink.old) text result (T.state sink.new) }
{
    let reset = Command::FullDefaults(C1Set::Parallel);
    let format = Command::Format(screen.rows(), screen.wrap());
    if screen.revision() == 2 {
        put_commands(sink, &[reset, Command::Revision(2), format])
    } else {
        put_commands(sink, &[reset, format])
    }
}

/// Puts the attributes of the screen.
fn put_screen_pen<T: Sink>(sink: &mut T, screen: &Screen) -> Result<(), WriteFault>
    ensures { let text = spellings (screen_commands screen.now.page.screen_pen) in
        PutsText (T.state sink.old) text result (T.state sink.new) }
{
    let mut list = Commands::new();
    add_pen(&mut list, Reach::Screen, &screen.screen_pen());
    put_commands(sink, list.as_slice())
}

/// Puts the attributes of a row at its first place, nothing where none is set.
fn put_row<T: Sink>(sink: &mut T, screen: &Screen, row: u8) -> Result<(), WriteFault>
    requires from_top { 1 ≤ row }
    requires to_bottom { row ≤ 24 }
    ensures { let text = spellings (row_commands row (row_pen_in screen.now.page.row_pens row)) in
        PutsText (T.state sink.old) text result (T.state sink.new) }
{
    let mut list = Commands::new();
    list.add(Command::Position(row, 1));
    add_pen(&mut list, Reach::Row, &screen.row_pen(row));
    put_headed(sink, list.as_slice())
}

/// Puts the attributes of all rows.
fn put_rows<T: Sink>(sink: &mut T, screen: &Screen) -> Result<(), WriteFault>
    ensures { let text = spellings (rows_below screen.now.page.row_pens 24) in
        PutsText (T.state sink.old) text result (T.state sink.new) }
{
    for i in 0..24u8 {
        put_row(sink, screen, 1 + i)?;
    }
    Ok(())
}

/// Puts the area, nothing where there is none.
fn put_area<T: Sink>(sink: &mut T, screen: &Screen) -> Result<(), WriteFault>
    ensures { let text = spellings (area_commands screen.now.control.area) in
        PutsText (T.state sink.old) text result (T.state sink.new) }
{
    match screen.area() {
        None => Ok(()),
        Some((first, last)) => put_commands(sink, &[Command::AreaCreate(first, last)]),
    }
}

/// Puts implicit scrolling where it is on.
fn put_implicit<T: Sink>(sink: &mut T, screen: &Screen) -> Result<(), WriteFault>
    ensures { let text = spellings (implicit_commands screen.now.control.implicit) in
        PutsText (T.state sink.old) text result (T.state sink.new) }
{
    if screen.implicit() {
        put_commands(sink, &[Command::Implicit(true)])
    } else {
        Ok(())
    }
}

/// Puts the bytes that bring the page of a screen back on a decoder that starts anew, with its
/// revision of the rules, its format, its area and implicit scrolling. Takes no memory. After
/// `WriteFault` a part of the text was put, from its front on, and not the whole.
pub fn write_page<T: Sink>(screen: &Screen, sink: &mut T) -> Result<(), WriteFault>
    ensures { PutsText (T.state sink.old) (page_text (core_of screen.now)) result
        (T.state sink.new) }
{
    compact_parts_are_written_in_turn();
    put_beginning(sink, screen)?;
    put_colours(sink, screen)?;
    put_dclut(sink, screen)?;
    put_patterns(sink, screen)?;
    put_screen_pen(sink, screen)?;
    put_rows(sink, screen)?;
    put_segments(sink, screen)?;
    put_area(sink, screen)?;
    put_implicit(sink, screen)
}
