ghost use Rattle.std.specs.Prelude.{◌≡◌, ◌+◌, ◌≤◌, ◌<◌, ◌++◌, ◌==◌, ◌&&◌, length};
ghost use Rattle.cept_outside.specs.SinkState.{PutsText};
ghost use Rattle.cept_parser.specs.Spelling.{spellings};
ghost use Rattle.cept_profile.specs.Colours.{default_paint};
ghost use Rattle.cept_writer.specs.CompactCommands.{changed_entry};
ghost use Rattle.cept_writer.specs.EntryPieces.{entry_numbered};
ghost use Rattle.cept_writer.specs.inside.EntryPieces.{entries_after, entry_after};
ghost use Rattle.cept_writer.specs.EntryPieces.{entry_piece};
ghost use Rattle.cept_writer.specs.inside.EntryPieces.{is_next_number, number_then};
ghost use Rattle.cept_writer.specs.EntryPieces.{pieces_in_turn};
ghost use Rattle.cept_writer.specs.PageCommands.{dclut_commands, with_colour_header};
ghost use Rattle.cept_writer.specs.Room.{Adds, HasRoomFor};

use crate::list::Commands;
use crate::put::{put_commands, put_headed};
use cept_codes::{Command, Paint, Rgb};
use cept_colours::Colours;
use cept_outside::{Sink, WriteFault};
use cept_profile::validity_is_kept;
use cept_repaint::Screen;

/// Whether this number comes directly after that of the last entry.
fn is_next_number(next: Option<u8>, i: u8) -> bool
    ensures { result ≡ is_next_number next i }
{
    match next {
        None => false,
        Some(number) => number == i,
    }
}

/// Adds a colour entry, after its number where that isn't the next one.
fn add_entry(list: &mut Commands, next: Option<u8>, i: u8, colour: Rgb)
    requires { HasRoomFor 2 list.old }
    ensures { Adds list.old 2 (entry_after next (record { number = i; colour = colour })) list.new }
{
    if !is_next_number(next, i) {
        list.add(Command::ColourStart(i));
    }
    list.add(Command::Entry(i, colour));
}

/// Adds a colour entry where it differs from its default, and answers the number after the last
/// one then.
fn add_changed(
    list: &mut Commands,
    next: Option<u8>,
    i: u8,
    paint: Paint,
    default: Paint,
) -> Option<u8>
    requires room { HasRoomFor 2 list.old }
    requires entry { i < 32 }
    requires default { default ≡ default_paint i }
    ensures adds { Adds list.old 2 (entries_after next (changed_entry i paint)) list.new }
    ensures next { result ≡ number_then next (changed_entry i paint) }
{
    if let Paint::Ink(colour) = paint {
        if paint == default {
            return next;
        }
        add_entry(list, next, i, colour);
        return Some(i + 1);
    }
    next
}

/// Adds all colour entries that differ.
fn add_entries(list: &mut Commands, screen: &Screen)
    requires { length list.old ≤ 8 }
    ensures { list.new
        ≡ list.old ++ pieces_in_turn entry_piece (entry_numbered screen.now.page.paints) 32 }
{
    let defaults = Colours::new();
    let mut next = None;
    for i in 0..32u8 {
        next = add_changed(list, next, i, screen.colour(i), defaults.paint(i));
    }
}

/// Puts the colour entries after their header, nothing where all are their defaults.
pub fn put_colours<T: Sink>(sink: &mut T, screen: &Screen) -> Result<(), WriteFault>
    ensures { let entries =
        pieces_in_turn entry_piece (entry_numbered screen.now.page.paints) 32 in
        let text = spellings (with_colour_header entries) in
        PutsText (T.state sink.old) text result (T.state sink.new) }
{
    validity_is_kept();
    // What this call promises is asked for: that the state of the screen is valid.
    let _rows = screen.rows();
    let mut list = Commands::new();
    list.add(Command::ColourHeader(false));
    add_entries(&mut list, screen);
    put_headed(sink, list.as_slice())
}

/// Whether these are the default entries of the DCLUT.
fn is_default(first: u8, second: u8, third: u8, fourth: u8) -> bool
    ensures { result ≡ (first == 0 && second == 1 && third == 2 && fourth == 3) }
{
    first == 0 && second == 1 && third == 2 && fourth == 3
}

/// Puts the DCLUT, nothing where each entry names the colour entry of its own number.
pub fn put_dclut<T: Sink>(sink: &mut T, screen: &Screen) -> Result<(), WriteFault>
    ensures { let text = spellings (dclut_commands screen.now.page.dclut) in
        PutsText (T.state sink.old) text result (T.state sink.new) }
{
    let (first, second) = (screen.dclut(0), screen.dclut(1));
    let (third, fourth) = (screen.dclut(2), screen.dclut(3));
    if is_default(first, second, third, fourth) {
        return Ok(());
    }
    let list = [
        Command::ColourHeader(true),
        Command::ColourStart(0),
        Command::Dclut(0, first),
        Command::Dclut(1, second),
        Command::Dclut(2, third),
        Command::Dclut(3, fourth),
    ];
    put_commands(sink, &list)
}
