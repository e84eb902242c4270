ghost use Rattle.std.specs.Prelude.{◌≡◌, ◌+◌, ◌≤◌};
ghost use Rattle.cept_writer.specs.AttributeCommands.{attribute_commands, attributes_commands};
ghost use Rattle.cept_writer.specs.AttributeCommands.{class_attributes};
ghost use Rattle.cept_writer.specs.AttributeCommands.{colour_commands, flash_commands};
ghost use Rattle.cept_writer.specs.AttributeCommands.{pen_commands, size_code};
ghost use Rattle.cept_writer.specs.Codes.{code_of};
ghost use Rattle.cept_writer.specs.Room.{Adds, HasRoomFor};

use crate::list::{Commands, Reach};
use cept_codes::{Attr, Command, Flash, Pen, Size};

/// The code of a size.
pub fn size_code(size: Size) -> u8
    ensures { result ≡ size_code size }
{
    match size {
        Size::Normal => 12,
        Size::High => 13,
        Size::Wide => 14,
        Size::Both => 15,
    }
}

/// Adds a colour entry, by its table and its code there, counted from the first.
pub fn add_colour(list: &mut Commands, reach: Reach, first: u8, e: u8)
    requires room { HasRoomFor 2 list.old }
    requires first { first ≤ 16 }
    ensures { Adds list.old 2 (colour_commands (code_of reach) first e) list.new }
{
    list.add(Command::Table(e / 8));
    list.add_code(reach, first + e % 8);
}

/// Adds a flash.
pub fn add_flash(list: &mut Commands, reach: Reach, flash: Flash)
    requires { HasRoomFor 1 list.old }
    ensures { Adds list.old 1 (flash_commands (code_of reach) flash) list.new }
{
    match flash {
        Flash::Plain => list.add_code(reach, 8),
        Flash::Steady => list.add_code(reach, 9),
        Flash::Inverted => list.add(Command::FlashMode(0)),
        Flash::Reduced => list.add(Command::FlashMode(1)),
        Flash::Fast1 => list.add(Command::FlashMode(2)),
        Flash::Fast2 => list.add(Command::FlashMode(3)),
        Flash::Fast3 => list.add(Command::FlashMode(4)),
    }
}

/// Adds an attribute.
pub fn add_attribute(list: &mut Commands, reach: Reach, attribute: Attr)
    requires { HasRoomFor 2 list.old }
    ensures { Adds list.old 2 (attribute_commands (code_of reach) attribute) list.new }
{
    match attribute {
        Attr::Fore(e) => add_colour(list, reach, 0, e),
        Attr::Back(e) => add_colour(list, reach, 16, e),
        Attr::NoBack => list.add_code(reach, 30),
        Attr::Flash(flash) => add_flash(list, reach, flash),
        Attr::Conceal(true) => list.add_code(reach, 24),
        Attr::Conceal(false) => list.add_code(reach, 31),
        Attr::Lined(true) => list.add_code(reach, 26),
        Attr::Lined(false) => list.add_code(reach, 25),
        Attr::Boxed(true) => list.add_code(reach, 11),
        Attr::Boxed(false) => list.add_code(reach, 10),
        Attr::Size(size) => list.add_code(reach, size_code(size)),
        Attr::Invert(true) => list.add_code(reach, 29),
        Attr::Invert(false) => list.add_code(reach, 28),
    }
}

/// Adds an attribute where there is one.
fn add_set(list: &mut Commands, reach: Reach, attribute: Option<Attr>)
    requires { HasRoomFor 2 list.old }
    ensures { Adds list.old 2
        (attributes_commands (code_of reach) (class_attributes (λ a. a) attribute)) list.new }
{
    if let Some(attribute) = attribute {
        add_attribute(list, reach, attribute);
    }
}

/// Adds the classes that a pen sets.
pub fn add_pen(list: &mut Commands, reach: Reach, pen: &Pen)
    requires { HasRoomFor 16 list.old }
    ensures { Adds list.old 16 (pen_commands (code_of reach) pen.now) list.new }
{
    add_set(list, reach, pen.fore.map(|entry| Attr::Fore(entry)));
    add_set(list, reach, pen.back.map(|entry| Attr::Back(entry)));
    add_set(list, reach, pen.flash.map(|flash| Attr::Flash(flash)));
    add_set(list, reach, pen.conceal.map(|on| Attr::Conceal(on)));
    add_set(list, reach, pen.lined.map(|on| Attr::Lined(on)));
    add_set(list, reach, pen.boxed.map(|on| Attr::Boxed(on)));
    add_set(list, reach, pen.size.map(|size| Attr::Size(size)));
    add_set(list, reach, pen.invert.map(|on| Attr::Invert(on)));
}
