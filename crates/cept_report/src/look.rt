ghost use Rattle.std.specs.Prelude.{◌≡◌, ◌==◌, ◌+◌, ◌∷◌, [], ◌++◌, if◌then◌else◌};
ghost use Rattle.arrayvec.specs.ArrayVec.{array_vec_len};
ghost use Rattle.cept_codes.specs.Look.{IsValidInks, IsValidLook, IsValidPattern, IsValidShape};
ghost use Rattle.cept_report.specs.Ascii.{ascii};
ghost use Rattle.cept_report.specs.Ending.{ending_text};
ghost use Rattle.cept_report.specs.Room.{Adds, HasRoomFor};
ghost use Rattle.cept_report.specs.Text.{set_letter, hex_byte, sign_text, shape_text};
ghost use Rattle.cept_report.specs.Text.{flash_letter, flag_letter, fields_text, look_text};
ghost use Rattle.cept_report.specs.Text.{ink_texts, pattern_text};

use crate::line::{Line, add_byte, add_hex_byte, add_text, hex_digit};
use crate::paint::paint_signs;
use crate::pattern::{add_inks, add_pattern};
use cept_codes::{Flash, Glyph, Inks, Look, Pattern, SetId, Shape};

/// The letter of a set.
pub fn letter_of_set(set: SetId) -> u8
    ensures { result ≡ set_letter set }
{
    match set {
        SetId::P => b'P',
        SetId::S => b'S',
        SetId::M => b'M',
        SetId::N => b'N',
        SetId::D => b'D',
    }
}

fn add_accent(line: &mut Line, accent: u8)
    requires { HasRoomFor 3 line.old }
    ensures { Adds line.old 3 (if accent == 0 then [] else ascii "+" ∷ hex_byte accent) line.new }
{
    if accent != 0 {
        add_byte(line, b'+');
        add_hex_byte(line, accent);
    }
}

/// Adds a sign: the letter of its set, its code and its accent.
#[inline(always)]
pub fn add_sign(line: &mut Line, glyph: Glyph)
    requires { HasRoomFor 6 line.old }
    ensures { Adds line.old 6 (sign_text glyph) line.new }
{
    let (high, low) = (hex_digit(glyph.code / 16), hex_digit(glyph.code % 16));
    add_text(line, &[letter_of_set(glyph.set), high, low]);
    add_accent(line, glyph.accent);
}

#[tactic(auto, unfolding(crate::specs::Text::shape_text))]
fn add_shape(line: &mut Line, shape: &Shape)
    requires room { HasRoomFor 202 line.old }
    requires valid { IsValidShape shape.now }
    ensures { Adds line.old 202 (shape_text shape.now) line.new }
{
    match shape {
        Shape::Space => add_byte(line, b'-'),
        Shape::Char(glyph) => add_sign(line, *glyph),
        Shape::Drcs(pattern, inks) => add_drawing(line, pattern, inks),
    }
}

/// Adds a pattern and its inks.
// A call of its own: patterns are rare and large.
#[inline(never)]
pub fn add_drawing(line: &mut Line, pattern: &Pattern, inks: &Inks)
    requires room { HasRoomFor 202 line.old }
    requires pattern { IsValidPattern pattern.now }
    requires inks { IsValidInks inks.now pattern.now.planes }
    ensures { Adds line.old 202
        (pattern_text pattern.now ++ ink_texts pattern.now.planes inks.now) line.new }
{
    add_pattern(line, pattern);
    add_inks(line, pattern.planes, inks);
}

fn letter_of_flash(flash: Flash) -> u8
    ensures { result ≡ flash_letter flash }
{
    match flash {
        Flash::Steady => b'S',
        Flash::Plain => b'F',
        Flash::Inverted => b'I',
        Flash::Reduced => b'R',
        Flash::Fast1 => b'1',
        Flash::Fast2 => b'2',
        Flash::Fast3 => b'3',
    }
}

fn letter_of_flag(letter: u8, flag: bool) -> u8
    ensures { result ≡ flag_letter letter flag }
{
    if flag { letter } else { b'-' }
}

/// The fields after the shape, each after a space, and a line feed.
// All at once, since none of them is of another size for another look.
#[inline(always)]
pub fn ending_of(look: &Look) -> [u8; 20]
    requires { IsValidLook look.now }
    ensures { result ≡ ending_text look.now }
{
    let fore = paint_signs(&look.fore);
    let back = paint_signs(&look.back);
    [
        b' ',
        b'0' + look.h,
        b'0' + look.w,
        b'.',
        b'0' + look.dy,
        b'0' + look.dx,
        b' ',
        fore.0,
        fore.1,
        fore.2,
        b' ',
        back.0,
        back.1,
        back.2,
        b' ',
        letter_of_flash(look.flash),
        letter_of_flag(b'c', look.conceal),
        letter_of_flag(b'l', look.lined),
        letter_of_flag(b'b', look.boxed),
        b'\n',
    ]
}

/// Adds the fields after the shape, each after a space, and a line feed.
#[inline(always)]
pub fn add_fields(line: &mut Line, look: &Look)
    requires room { HasRoomFor 20 line.old }
    requires valid { IsValidLook look.now }
    ensures text { line.new.items
        ≡ line.old.items ++ (ascii " " ∷ fields_text look.now ++ ascii "\n" ∷ []) }
    ensures len { array_vec_len line.new ≡ array_vec_len line.old + 20 }
{
    add_text(line, &ending_of(look));
}

/// Adds the five fields of a look, and a line feed: at most 222 bytes, where a pattern has nine words
/// and sixteen inks.
pub fn add_look(line: &mut Line, look: &Look)
    requires room { HasRoomFor 222 line.old }
    requires valid { IsValidLook look.now }
    ensures { Adds line.old 222 (look_text look.now ++ ascii "\n" ∷ []) line.new }
{
    add_shape(line, &look.shape);
    add_fields(line, look);
}
