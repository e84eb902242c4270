ghost use Rattle.std.specs.Prelude.{◌≡◌};
ghost use Rattle.cept_editor.specs.Order.{command_of};

use cept_codes::{C1Set, Command, Rgb};

/// A command that a line asks for by itself, in little room: a `Command` has room for a pattern.
#[derive(Clone, Copy)]
pub(crate) enum Brief {
    Position(u8, u8),
    DesignateC1(C1Set),
    C1(u8),
    FullRow(u8),
    FullScreen(u8),
    Table(u8),
    Entry(u8, Rgb),
    Repeat(u8),
    Cancel,
    Clear,
    Home,
    Return,
    Back,
    Forward,
    Down,
    Up,
    Protect(bool),
    AreaCreate(u8, u8),
    AreaDelete(u8, u8),
    ScrollUp,
    ScrollDown,
    Implicit(bool),
    Revision(u8),
}

impl Brief {
    /// The command in full.
    pub(crate) fn command(self) -> Command
        ensures { result ≡ command_of self }
    {
        match self {
            Brief::Position(row, column) => Command::Position(row, column),
            Brief::DesignateC1(set) => Command::DesignateC1(set),
            Brief::C1(code) => Command::C1(code),
            Brief::FullRow(code) => Command::FullRow(code),
            Brief::FullScreen(code) => Command::FullScreen(code),
            Brief::Table(number) => Command::Table(number),
            Brief::Entry(entry, rgb) => Command::Entry(entry, rgb),
            Brief::Repeat(times) => Command::Repeat(times),
            Brief::Cancel => Command::Cancel,
            Brief::Clear => Command::Clear,
            Brief::Home => Command::Home,
            Brief::Return => Command::Return,
            Brief::Back => Command::Back,
            Brief::Forward => Command::Forward,
            Brief::Down => Command::Down,
            Brief::Up => Command::Up,
            Brief::Protect(on) => Command::Protect(on),
            Brief::AreaCreate(first, last) => Command::AreaCreate(first, last),
            Brief::AreaDelete(first, last) => Command::AreaDelete(first, last),
            Brief::ScrollUp => Command::ScrollUp,
            Brief::ScrollDown => Command::ScrollDown,
            Brief::Implicit(on) => Command::Implicit(on),
            Brief::Revision(number) => Command::Revision(number),
        }
    }
}
