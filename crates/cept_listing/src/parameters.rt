//! Names with their parameters, each added to a line.

ghost use Rattle.std.specs.Prelude.{◌+◌, ◌≤◌, ◌<◌, ◌∷◌, [], ◌++◌, length, decimal, codes};
ghost use Rattle.std.specs.Prelude.{if◌then◌else◌};
ghost use Rattle.cept_codes.specs.Look.{IsValidRgb};
ghost use Rattle.cept_codes.specs.declared.look.Paint.TheVariants as paints;
ghost use Rattle.cept_report.specs.Room.{Adds, HasRoomFor};
ghost use Rattle.cept_report.specs.Text.{form_text, paint_text, set_letter, spaced};
ghost use Rattle.cept_listing.specs.Listing.{c1_set_text, c1_text, code_text};
ghost use Rattle.cept_listing.specs.Names.{designation_names, name_of, parallel_names};
ghost use Rattle.cept_listing.specs.Names.{serial_names};

use crate::names::{designation_name, parallel_name, serial_name};
use cept_codes::{C1Set, Rgb, SetId};
use cept_report::{Line, add_byte, add_small, add_text, hex_digit, letter_of_set};

/// Adds a name and a number without a space.
pub fn add_numbered(line: &mut Line, name: &[u8], number: u8)
    requires room { HasRoomFor (length name.now + 2) line.old }
    requires small { number < 100 }
    ensures { Adds line.old (length name.now + 2) (name.now ++ decimal number) line.new }
{
    add_text(line, name);
    add_small(line, number);
}

/// Adds a name and a word.
fn add_word(line: &mut Line, name: &[u8], word: &[u8])
    requires room { HasRoomFor (length name.now + 1 + length word.now) line.old }
    ensures { Adds line.old (length name.now + 1 + length word.now)
        (spaced (name.now ∷ word.now ∷ [])) line.new }
{
    add_text(line, name);
    add_byte(line, b' ');
    add_text(line, word);
}

/// Adds a name and one of two words.
pub fn add_either(line: &mut Line, name: &[u8], flag: bool, one: &[u8], other: &[u8])
    requires room { HasRoomFor (length name.now + 7) line.old }
    requires one { length one.now ≤ 6 }
    requires other { length other.now ≤ 6 }
    ensures { Adds line.old (length name.now + 7)
        (spaced (name.now ∷ (if flag then one.now else other.now) ∷ [])) line.new }
{
    if flag {
        add_word(line, name, one);
    } else {
        add_word(line, name, other);
    }
}

/// Adds a name and a number.
pub fn add_one(line: &mut Line, name: &[u8], number: u8)
    requires room { HasRoomFor (length name.now + 3) line.old }
    requires small { number < 100 }
    ensures { Adds line.old (length name.now + 3) (spaced (name.now ∷ decimal number ∷ [])) line.new }
{
    add_text(line, name);
    add_byte(line, b' ');
    add_small(line, number);
}

/// Adds a name and two numbers.
pub fn add_two(line: &mut Line, name: &[u8], one: u8, other: u8)
    requires room { HasRoomFor (length name.now + 6) line.old }
    requires one { one < 100 }
    requires other { other < 100 }
    ensures { Adds line.old (length name.now + 6)
        (spaced (name.now ∷ decimal one ∷ decimal other ∷ [])) line.new }
{
    add_one(line, name, one);
    add_byte(line, b' ');
    add_small(line, other);
}

/// Adds a name and a code by its column and row.
pub fn add_code(line: &mut Line, name: &[u8], code: u8)
    requires room { HasRoomFor (length name.now + 6) line.old }
    ensures { Adds line.old (length name.now + 6) (spaced (name.now ∷ code_text code ∷ [])) line.new }
{
    add_one(line, name, code / 16);
    add_byte(line, b'/');
    add_small(line, code % 16);
}

/// Adds a C1 code, with its name in each set.
pub fn add_c1(line: &mut Line, n: u8)
    requires room { HasRoomFor 26 line.old }
    requires valid { n < 32 }
    ensures { Adds line.old 26 (spaced
        (codes "C1" ∷ c1_text n ∷ name_of serial_names n ∷ name_of parallel_names n ∷ [])) line.new }
{
    add_attribute(line, b"C1", n, &serial_name(n));
    add_byte(line, b' ');
    add_text(line, &parallel_name(n));
}

/// Adds what sets an attribute, a C1 code and its name.
pub fn add_attribute(line: &mut Line, name: &[u8], n: u8, short: &[u8; 3])
    requires room { HasRoomFor (length name.now + 10) line.old }
    requires valid { n < 32 }
    ensures { Adds line.old (length name.now + 10) (spaced (name.now ∷ c1_text n ∷ short.now ∷ []))
        line.new }
{
    add_code(line, name, 0x80 + n);
    add_byte(line, b' ');
    add_text(line, short);
}

/// Adds a name and a C1 set.
pub fn add_c1_set(line: &mut Line, name: &[u8], set: C1Set)
    requires { HasRoomFor (length name.now + 9) line.old }
    ensures { Adds line.old (length name.now + 9) (spaced (name.now ∷ c1_set_text set ∷ [])) line.new }
{
    match set {
        C1Set::Serial => add_word(line, name, b"serial"),
        C1Set::Parallel => add_word(line, name, b"parallel"),
    }
}

/// Adds a designation and its set.
pub fn add_designation(line: &mut Line, g: u8, set: SetId)
    requires room { HasRoomFor 26 line.old }
    requires valid { g < 4 }
    ensures { Adds line.old 26 (spaced (name_of designation_names g ∷ (set_letter set ∷ []) ∷ []))
        line.new }
{
    add_word(line, &designation_name(g), &[letter_of_set(set)]);
}

/// Adds an entry and its colour.
pub fn add_colour(line: &mut Line, entry: u8, c: &Rgb)
    requires room { HasRoomFor 26 line.old }
    requires entry { entry < 100 }
    requires valid { IsValidRgb c.now }
    ensures { Adds line.old 26 (spaced (codes "COLOUR" ∷ decimal entry ∷ paint_text (paints.Ink c.now) ∷ []))
        line.new }
{
    add_one(line, b"COLOUR", entry);
    add_byte(line, b' ');
    add_text(line, &[hex_digit(c.r), hex_digit(c.g), hex_digit(c.b)]);
}

/// Adds the form of patterns after a space.
pub fn add_form(line: &mut Line, w: u8, h: u8, planes: u8)
    requires room { HasRoomFor 9 line.old }
    requires w { w < 100 }
    requires h { h < 100 }
    requires planes { planes < 10 }
    ensures { Adds line.old 8 (codes " " ++ form_text w h planes) line.new }
{
    add_byte(line, b' ');
    add_small(line, w);
    add_byte(line, b'x');
    add_small(line, h);
    add_byte(line, b'x');
    add_small(line, planes);
}
