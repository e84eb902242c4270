ghost use Rattle.std.specs.Prelude.{◌+◌, ◌++◌, ◌∷◌, []};
ghost use Rattle.cept_codes.specs.declared.command.Command.TheVariants as commands;
ghost use Rattle.cept_writer.specs.CellCommands.{accent_commands, marker_commands};
ghost use Rattle.cept_writer.specs.Room.{Adds, HasRoomFor};

use crate::attributes::{add_colour, add_flash, size_code};
use crate::list::{Commands, Reach};
use cept_codes::{Command, Marker};

/// Adds an accent of set S, before its sign.
fn add_accent(list: &mut Commands, accent: u8)
    requires { HasRoomFor 2 list.old }
    ensures { Adds list.old 2 (accent_commands accent) list.new }
{
    if accent != 0 {
        list.add(Command::Single(2));
        list.add(Command::Graphic(accent));
    }
}

/// Adds a sign after a single shift.
pub fn add_single(list: &mut Commands, g: u8, code: u8)
    requires { HasRoomFor 2 list.old }
    ensures { Adds list.old 2 (commands.Single g ∷ commands.Graphic code ∷ []) list.new }
{
    list.add(Command::Single(g));
    list.add(Command::Graphic(code));
}

/// Adds a sign with its accent.
pub fn add_accented(list: &mut Commands, code: u8, accent: u8)
    requires { HasRoomFor 3 list.old }
    ensures { Adds list.old 3 (accent_commands accent ++ commands.Graphic code ∷ []) list.new }
{
    add_accent(list, accent);
    list.add(Command::Graphic(code));
}

/// Adds what leaves a marker.
pub fn add_marker(list: &mut Commands, marker: &Marker)
    requires { HasRoomFor 2 list.old }
    ensures { Adds list.old 2 (marker_commands marker.now) list.new }
{
    match marker {
        Marker::Alpha(e) => add_colour(list, Reach::Signs, 0, *e),
        Marker::Mosaic(e) => add_colour(list, Reach::Signs, 16, *e),
        Marker::BlackBack => list.add(Command::C1(28)),
        Marker::NewBack => list.add(Command::C1(29)),
        Marker::Hold => list.add(Command::C1(30)),
        Marker::Release => list.add(Command::C1(31)),
        Marker::Flash(flash) => add_flash(list, Reach::Signs, *flash),
        Marker::Conceal(true) => list.add(Command::C1(24)),
        Marker::Conceal(false) => list.add(Command::StopConceal),
        Marker::Lined(true) => list.add(Command::C1(26)),
        Marker::Lined(false) => list.add(Command::C1(25)),
        Marker::Boxed(true) => list.add(Command::C1(11)),
        Marker::Boxed(false) => list.add(Command::C1(10)),
        Marker::Size(size) => list.add(Command::C1(size_code(*size))),
    }
}
