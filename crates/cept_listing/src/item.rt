//! The line of an item.

ghost use Rattle.std.specs.Prelude.{◌≡◌};
ghost use Rattle.cept_codes.specs.Command.{IsValidItem, IsValidSaid};
ghost use Rattle.cept_listing.specs.Listing.{item_line, said_text};
ghost use Rattle.cept_outside.specs.SinkState.{PutsText};
ghost use Rattle.cept_report.specs.Room.{Adds, HasRoomFor};

use crate::command::add_command;
use cept_codes::{Item, Said};
use cept_outside::{Sink, WriteFault, put_all};
use cept_report::{Line, add_byte, add_number, add_reason_name, add_text};

/// Adds what an item says.
#[tactic(auto, unfolding(crate::specs::Listing::said_text))]
fn add_said(line: &mut Line, what: &Said)
    requires room { HasRoomFor 32 line.old }
    requires valid { IsValidSaid what.now }
    ensures { Adds line.old 26 (said_text what.now) line.new }
{
    match what {
        Said::Command(command) => add_command(line, command),
        Said::Refused(reason) => {
            add_text(line, b"REFUSED ");
            add_reason_name(line, *reason);
        }
    }
}

/// The line of an item.
fn item_line(item: &Item) -> Line
    requires { IsValidItem item.now }
    ensures { result.items ≡ item_line item.now }
{
    let mut line = Line::new();
    add_number(&mut line, item.at);
    add_byte(&mut line, b' ');
    add_number(&mut line, u64::from(item.len));
    add_byte(&mut line, b' ');
    add_said(&mut line, &item.what);
    add_byte(&mut line, b'\n');
    line
}

/// Puts the line of an item. After `WriteFault` a part of it was put, from its front on, and not the
/// whole.
pub fn put_item<T: Sink>(sink: &mut T, item: &Item) -> Result<(), WriteFault>
    requires { IsValidItem item.now }
    ensures { PutsText (T.state sink.old) (item_line item.now) result (T.state sink.new) }
{
    put_all(sink, item_line(item).as_slice())
}
