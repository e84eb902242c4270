ghost use Rattle.std.specs.Prelude.{◌≡◌, ◌+◌, ◌*◌, ◌≤◌, ◌<◌, ◌∷◌, []};
ghost use Rattle.cept_codes.specs.Command.{IsValidCommand, IsValidForm};
ghost use Rattle.cept_codes.specs.Look.{IsValidRgb};
ghost use Rattle.cept_parser.specs.Spelling.{colour_byte, ones_byte, set_bytes};
ghost use Rattle.cept_parser.specs.Spelling.{size_byte, spelling, tens_byte};
ghost use Rattle.cept_writer.specs.Room.{AddsBytes, HasRoomForBytes};

use crate::pattern::add_pattern;
use crate::text::{Text, add_bytes};
use cept_codes::{C1Set, Command, Form, Rgb, SetId};

/// The digits of a number below 100.
fn digits(n: u8) -> (u8, u8)
    requires { n < 100 }
    ensures tens { result.0 ≡ tens_byte n }
    ensures ones { result.1 ≡ ones_byte n }
{
    (0x30 + n / 10, 0x30 + n % 10)
}

/// Two bits of red, green and blue: bits 3 and 2, or bits 1 and 0.
fn colour_bytes(c: &Rgb) -> (u8, u8)
    requires { IsValidRgb c.now }
    ensures high { result.0 ≡ colour_byte 2 c.now }
    ensures low { result.1 ≡ colour_byte 0 c.now }
{
    let upper = 32 * (c.r / 8 % 2) + 16 * (c.g / 8 % 2) + 8 * (c.b / 8 % 2);
    let third = 4 * (c.r / 4 % 2) + 2 * (c.g / 4 % 2) + c.b / 4 % 2;
    let second = 32 * (c.r / 2 % 2) + 16 * (c.g / 2 % 2) + 8 * (c.b / 2 % 2);
    let last = 4 * (c.r % 2) + 2 * (c.g % 2) + c.b % 2;
    (0x40 + upper + third, 0x40 + second + last)
}

/// The byte of the size of patterns.
fn size_byte(form: &Form) -> u8
    ensures { result ≡ size_byte form.now }
{
    match (form.w, form.h) {
        (12, 12) => 0x36,
        (12, _) => 0x37,
        (_, 12) => 0x3A,
        (_, 10) => 0x3B,
        (_, 5) => 0x3C,
        _ => 0x3F,
    }
}

/// Adds the designation of a set to G0 to G3.
fn add_designation(text: &mut Text, g: u8, set: SetId)
    requires room { HasRoomForBytes 101 text.old }
    requires valid { g ≤ 3 }
    ensures { AddsBytes text.old 101 (0x1B ∷ (0x28 + g) ∷ set_bytes set) text.new }
{
    match set {
        SetId::P => add_bytes(text, &[0x1B, 0x28 + g, 0x40]),
        SetId::S => add_bytes(text, &[0x1B, 0x28 + g, 0x62]),
        SetId::M => add_bytes(text, &[0x1B, 0x28 + g, 0x63]),
        SetId::N => add_bytes(text, &[0x1B, 0x28 + g, 0x64]),
        SetId::D => add_bytes(text, &[0x1B, 0x28 + g, 0x20, 0x40]),
    }
}

/// Adds the header of downloaded patterns of this form.
fn add_drcs_header(text: &mut Text, form: &Form)
    requires room { HasRoomForBytes 101 text.old }
    requires valid { IsValidForm form.now }
    ensures { AddsBytes text.old 101
        (0x1F ∷ 0x23 ∷ 0x20 ∷ 0x20 ∷ 0x40 ∷ size_byte form.now ∷ (0x40 + form.now.planes) ∷ [])
        text.new }
{
    let size = size_byte(form);
    add_bytes(
        text,
        &[0x1F, 0x23, 0x20, 0x20, 0x40, size, 0x40 + form.planes],
    );
}

/// Adds the rows of a scrolling area.
fn add_area(text: &mut Text, first: u8, last: u8)
    requires room { HasRoomForBytes 101 text.old }
    requires first { first < 100 }
    requires last { last < 100 }
    ensures { AddsBytes text.old 101
        (0x9B ∷ tens_byte first ∷ ones_byte first ∷ 0x3B ∷ tens_byte last ∷ ones_byte last ∷ 0x55 ∷
        []) text.new }
{
    let (tens, ones) = digits(first);
    let (last_tens, last_ones) = digits(last);
    add_bytes(text, &[0x9B, tens, ones, 0x3B, last_tens, last_ones, 0x55]);
}

/// Adds where colours begin.
fn add_colour_start(text: &mut Text, i: u8)
    requires room { HasRoomForBytes 101 text.old }
    requires entry { i < 100 }
    ensures { AddsBytes text.old 101 (0x1F ∷ 0x26 ∷ tens_byte i ∷ ones_byte i ∷ []) text.new }
{
    let (tens, ones) = digits(i);
    add_bytes(text, &[0x1F, 0x26, tens, ones]);
}

/// Adds a colour.
fn add_colour(text: &mut Text, c: &Rgb)
    requires room { HasRoomForBytes 101 text.old }
    requires valid { IsValidRgb c.now }
    ensures { AddsBytes text.old 101 (colour_byte 2 c.now ∷ colour_byte 0 c.now ∷ []) text.new }
{
    let (high, low) = colour_bytes(c);
    add_bytes(text, &[high, low]);
}

/// Adds the bytes of a command, none of one that a written page doesn't have.
#[tactic(auto, unfolding(cept_parser::specs::Spelling::spelling))]
pub fn add_spelling(text: &mut Text, command: &Command)
    requires room { HasRoomForBytes 101 text.old }
    requires valid { IsValidCommand command.now }
    ensures { AddsBytes text.old 101 (spelling command.now) text.new }
{
    match command {
        Command::FullDefaults(C1Set::Serial) => add_bytes(text, &[0x1F, 0x2F, 0x41]),
        Command::FullDefaults(C1Set::Parallel) => add_bytes(text, &[0x1F, 0x2F, 0x42]),
        Command::Revision(2) => add_bytes(text, &[0x1F, 0x2F, 0x45]),
        Command::Revision(_) => add_bytes(text, &[0x1F, 0x2F, 0x46]),
        Command::Format(20, true) => add_bytes(text, &[0x1F, 0x2D, 0x42, 0x70]),
        Command::Format(20, false) => add_bytes(text, &[0x1F, 0x2D, 0x42, 0x71]),
        Command::Format(_, true) => add_bytes(text, &[0x1F, 0x2D, 0x41, 0x70]),
        Command::Format(_, false) => add_bytes(text, &[0x1F, 0x2D, 0x41, 0x71]),
        Command::ColourHeader(true) => add_bytes(text, &[0x1F, 0x26, 0x20, 0x22]),
        Command::ColourHeader(false) => add_bytes(text, &[0x1F, 0x26, 0x20, 0x20]),
        Command::ColourStart(i) => add_colour_start(text, *i),
        Command::Entry(_, c) => add_colour(text, c),
        Command::Dclut(_, v) => add_bytes(text, &[0x40 + *v]),
        Command::DrcsHeader(false, form) => add_drcs_header(text, form),
        Command::DrcsStart(c) => add_bytes(text, &[0x1F, 0x23, *c]),
        Command::DrcsPattern(_, pattern) => add_pattern(text, pattern),
        Command::Table(k) => add_bytes(text, &[0x9B, 0x30 + *k, 0x40]),
        Command::C1(n) => add_bytes(text, &[0x80 + *n]),
        Command::FlashMode(k) => add_bytes(text, &[0x9B, 0x30 + *k, 0x41]),
        Command::StopConceal => add_bytes(text, &[0x9B, 0x42]),
        Command::FullScreen(n) => add_bytes(text, &[0x1B, 0x23, 0x20, 0x40 + *n]),
        Command::FullRow(n) => add_bytes(text, &[0x1B, 0x23, 0x21, 0x40 + *n]),
        Command::Position(r, c) => add_bytes(text, &[0x1F, 0x40 + *r, 0x40 + *c]),
        Command::Protect(true) => add_bytes(text, &[0x9B, 0x31, 0x50]),
        Command::Protect(false) => add_bytes(text, &[0x9B, 0x31, 0x51]),
        Command::DesignateC1(C1Set::Serial) => add_bytes(text, &[0x1B, 0x22, 0x40]),
        Command::DesignateC1(C1Set::Parallel) => add_bytes(text, &[0x1B, 0x22, 0x41]),
        Command::Graphic(b) => add_bytes(text, &[*b]),
        Command::LockLeft(0) => add_bytes(text, &[0x0F]),
        Command::LockLeft(_) => add_bytes(text, &[0x0E]),
        Command::Designate(g, set) => add_designation(text, *g, *set),
        Command::Single(2) => add_bytes(text, &[0x19]),
        Command::Single(_) => add_bytes(text, &[0x1D]),
        Command::Repeat(n) => add_bytes(text, &[0x12, 0x40 + *n]),
        Command::AreaCreate(first, last) => add_area(text, *first, *last),
        Command::Implicit(true) => add_bytes(text, &[0x9B, 0x32, 0x60]),
        Command::Implicit(false) => add_bytes(text, &[0x9B, 0x33, 0x60]),
        // no written page has these
        Command::DrcsHeader(true, _)
        | Command::Nul
        | Command::Skipped
        | Command::Back
        | Command::Forward
        | Command::Down
        | Command::Up
        | Command::Clear
        | Command::Return
        | Command::Home
        | Command::CursorOn
        | Command::CursorOff
        | Command::Cancel
        | Command::LockRight(_)
        | Command::ScrollUp
        | Command::ScrollDown
        | Command::Marked(_)
        | Command::AreaDelete(_, _)
        | Command::ColourDefaults
        | Command::ServiceBreak(_)
        | Command::ServiceEnd
        | Command::ControlDefaults(_) => {}
    }
}
