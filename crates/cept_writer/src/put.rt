ghost use Rattle.std.specs.Prelude.{◌*◌, ◌<◌, length};
ghost use Rattle.std.specs.List.{flat_map};
ghost use Rattle.cept_outside.specs.SinkState.{PutsText};
ghost use Rattle.cept_parser.specs.Spelling.{spelling, spellings};
ghost use Rattle.cept_profile.specs.Valid.{AllValid};
ghost use Rattle.cept_writer.specs.Codes.{after_header};
ghost use Rattle.cept_writer.specs.Room.{AddsBytes, AreWritable, HasRoomForBytes};

use crate::list::Commands;
use crate::spelling::add_spelling;
use crate::text::Text;
use cept_codes::Command;
use cept_outside::{Sink, WriteFault, put_all};

/// Room in which commands and their bytes are made, of which the old ones count for nothing.
#[derive(Drop)]
pub struct Room {
    pub list: Commands,
    pub text: Text,
}

impl Room {
    /// Room that is empty.
    pub fn new() -> Room {
        Room {
            list: Commands::new(),
            text: Text::new(),
        }
    }
}

/// Adds the bytes of commands one after the other.
fn add_spellings(text: &mut Text, commands: &[Command])
    requires room { HasRoomForBytes (101 * length commands.now) text.old }
    requires valid { AllValid commands.now }
    ensures { AddsBytes text.old (101 * length commands.now)
        (flat_map spelling commands.now) text.new }
{
    for command in commands {
        add_spelling(text, command);
    }
}

/// Puts the bytes of commands, in one piece, made in a text whose old bytes count for nothing.
pub fn put_commands_in<T: Sink>(
    sink: &mut T,
    text: &mut Text,
    commands: &[Command],
) -> Result<(), WriteFault>
    requires { AreWritable commands.now }
    ensures { PutsText (T.state sink.old) (spellings commands.now) result (T.state sink.new) }
{
    text.clear();
    add_spellings(text, commands);
    put_all(sink, text.as_slice())
}

/// Puts the bytes of commands, in one piece.
pub fn put_commands<T: Sink>(sink: &mut T, commands: &[Command]) -> Result<(), WriteFault>
    requires { AreWritable commands.now }
    ensures { PutsText (T.state sink.old) (spellings commands.now) result (T.state sink.new) }
{
    put_commands_in(sink, &mut Text::new(), commands)
}

/// Puts the bytes of commands after their header, nothing where it stands alone.
pub fn put_headed<T: Sink>(sink: &mut T, commands: &[Command]) -> Result<(), WriteFault>
    requires { AreWritable commands.now }
    ensures { let text = spellings (after_header commands.now) in
        PutsText (T.state sink.old) text result (T.state sink.new) }
{
    if commands.len() < 2 {
        return Ok(());
    }
    put_commands(sink, commands)
}
