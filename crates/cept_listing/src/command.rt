//! The text of a command.

ghost use Rattle.std.specs.Prelude.{◌+◌, ◌∷◌, []};
ghost use Rattle.cept_codes.specs.Command.{IsValidCommand, IsValidForm};
ghost use Rattle.cept_codes.specs.Look.{IsValidPattern};
ghost use Rattle.std.specs.Prelude.{codes, if◌then◌else◌};
ghost use Rattle.cept_listing.specs.Listing.{code_text, command_text};
ghost use Rattle.cept_report.specs.Room.{Adds, HasRoomFor};
ghost use Rattle.cept_report.specs.Text.{form_text, spaced};

use crate::names::{flash_name, parallel_name};
use crate::parameters::{
    add_attribute, add_c1, add_c1_set, add_code, add_colour, add_designation, add_either, add_form,
    add_numbered, add_one, add_two,
};
use cept_codes::{Command, Form, Pattern};
use cept_report::{Line, add_byte, add_text};

/// Adds the header of patterns of a form, which deletes all of them or keeps them.
fn add_drcs_header(line: &mut Line, deletes: bool, form: &Form)
    requires room { HasRoomFor 32 line.old }
    requires valid { IsValidForm form.now }
    ensures { Adds line.old 26 (spaced (codes "DRCS-HEADER"
        ∷ (if deletes then codes "delete" else codes "keep")
        ∷ form_text form.now.w form.now.h form.now.planes ∷ [])) line.new }
{
    add_either(line, b"DRCS-HEADER", deletes, b"delete", b"keep");
    add_form(line, form.w, form.h, form.planes);
}

/// Adds a code and the form of its pattern.
fn add_drcs(line: &mut Line, code: u8, pattern: &Pattern)
    requires room { HasRoomFor 32 line.old }
    requires valid { IsValidPattern pattern.now }
    ensures { Adds line.old 26 (spaced (codes "DRCS" ∷ code_text code
        ∷ form_text pattern.now.w pattern.now.h pattern.now.planes ∷ [])) line.new }
{
    add_code(line, b"DRCS", code);
    add_form(line, pattern.w, pattern.h, pattern.planes);
}

/// Adds the name of a command and its parameters.
#[tactic(auto, unfolding(crate::specs::Listing::command_text))]
pub fn add_command(line: &mut Line, command: &Command)
    requires room { HasRoomFor 32 line.old }
    requires valid { IsValidCommand command.now }
    ensures { Adds line.old 26 (command_text command.now) line.new }
{
    match command {
        Command::Nul => add_text(line, b"NUL"),
        Command::Skipped => add_text(line, b"SKIPPED"),
        Command::Back => add_text(line, b"APB"),
        Command::Forward => add_text(line, b"APF"),
        Command::Down => add_text(line, b"APD"),
        Command::Up => add_text(line, b"APU"),
        Command::Clear => add_text(line, b"CS"),
        Command::Return => add_text(line, b"APR"),
        Command::Home => add_text(line, b"APH"),
        Command::CursorOn => add_text(line, b"CON"),
        Command::CursorOff => add_text(line, b"COF"),
        Command::Cancel => add_text(line, b"CAN"),
        Command::LockLeft(g) => add_numbered(line, b"LS", *g),
        Command::LockRight(g) => {
            add_numbered(line, b"LS", *g);
            add_byte(line, b'R');
        }
        Command::Single(g) => add_numbered(line, b"SS", *g),
        Command::Repeat(n) => add_one(line, b"RPT", *n),
        Command::Position(row, column) => add_two(line, b"APA", *row, *column),
        Command::Graphic(byte) => add_code(line, b"GRAPHIC", *byte),
        Command::C1(n) => add_c1(line, *n),
        Command::DesignateC1(set) => add_c1_set(line, b"C1D", *set),
        Command::Designate(g, set) => add_designation(line, *g, *set),
        Command::Table(k) => add_numbered(line, b"CT", *k + 1),
        Command::FlashMode(k) => add_text(line, &flash_name(*k)),
        Command::StopConceal => add_text(line, b"STC"),
        Command::ScrollUp => add_text(line, b"SCU"),
        Command::ScrollDown => add_text(line, b"SCD"),
        Command::Implicit(true) => add_text(line, b"AIS"),
        Command::Implicit(false) => add_text(line, b"DIS"),
        Command::Protect(true) => add_text(line, b"PMS"),
        Command::Protect(false) => add_text(line, b"PMC"),
        Command::Marked(true) => add_text(line, b"MMS"),
        Command::Marked(false) => add_text(line, b"MMT"),
        Command::AreaCreate(first, last) => add_two(line, b"CSA", *first, *last),
        Command::AreaDelete(first, last) => add_two(line, b"DSA", *first, *last),
        Command::FullScreen(n) => add_attribute(line, b"SCREEN", *n, &parallel_name(*n)),
        Command::FullRow(n) => add_attribute(line, b"ROW", *n, &parallel_name(*n)),
        Command::ColourHeader(look_up) => {
            add_either(line, b"COLOUR-HEADER", *look_up, b"dclut", b"table");
        }
        Command::ColourDefaults => add_text(line, b"COLOUR-DEFAULTS"),
        Command::ColourStart(i) => add_one(line, b"COLOUR-START", *i),
        Command::Entry(i, c) => add_colour(line, *i, c),
        Command::Dclut(i, v) => add_two(line, b"DCLUT", *i, *v),
        Command::DrcsHeader(deletes, form) => add_drcs_header(line, *deletes, form),
        Command::DrcsStart(c) => add_code(line, b"DRCS-START", *c),
        Command::DrcsPattern(c, pattern) => add_drcs(line, *c, pattern),
        Command::Format(rows, true) => {
            add_one(line, b"FORMAT", *rows);
            add_text(line, b" wrap");
        }
        Command::Format(rows, false) => {
            add_one(line, b"FORMAT", *rows);
            add_text(line, b" no-wrap");
        }
        Command::ServiceBreak(row) => add_one(line, b"SERVICE-BREAK", *row),
        Command::ServiceEnd => add_text(line, b"SERVICE-END"),
        Command::FullDefaults(set) => add_c1_set(line, b"FULL-DEFAULTS", *set),
        Command::ControlDefaults(set) => add_c1_set(line, b"CONTROL-DEFAULTS", *set),
        Command::Revision(number) => add_one(line, b"REVISION", *number),
    }
}
