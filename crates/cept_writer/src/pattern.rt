ghost use Rattle.std.specs.Prelude.{◌≡◌, ◌+◌, ◌*◌, ◌≤◌, ◌<◌};
ghost use Rattle.cept_codes.specs.Look.{IsValidPattern, bit_of};
ghost use Rattle.cept_parser.specs.Spelling.{half_line_byte, line_bytes, pattern_bytes, plane_bytes};
ghost use Rattle.cept_writer.specs.Room.{AddsBytes, HasRoomForBytes};

use crate::text::{Text, add_bytes};
use cept_codes::Pattern;

/// The bit of this number of a pattern.
fn bit(pattern: &Pattern, n: usize) -> u8
    requires { n < 576 }
    ensures bit { result ≡ bit_of pattern.now.bits n }
    ensures one { result ≤ 1 }
{
    ((pattern.bits[n / 64] >> (n % 64)) & 1) as u8
}

/// Three bits from this one on as a number, the first one highest.
fn three_bits(pattern: &Pattern, n: usize) -> u8
    requires { n + 3 ≤ 576 }
    ensures bits { result ≡ 4 * bit_of pattern.now.bits n + 2 * bit_of pattern.now.bits (n + 1)
        + bit_of pattern.now.bits (n + 2) }
    ensures few { result ≤ 7 }
{
    4 * bit(pattern, n) + 2 * bit(pattern, n + 1) + bit(pattern, n + 2)
}

/// Six pixels of a line of a plane, from a column on.
#[tactic(auto, unfolding(cept_parser::specs::Spelling::half_line_byte))]
fn half_line_byte(pattern: &Pattern, plane: u8, line: u8, column: u8) -> u8
    requires column { column ≤ 6 }
    requires within { (plane * pattern.now.h + line) * pattern.now.w + column + 6 ≤ 576 }
    ensures { result ≡ half_line_byte pattern.now plane line column }
{
    let height = usize::from(pattern.h);
    let lines = usize::from(plane) * height + usize::from(line);
    let n = lines * usize::from(pattern.w) + usize::from(column);
    0x40 + 8 * three_bits(pattern, n) + three_bits(pattern, n + 3)
}

/// Adds a line of a plane: its left half, and its right half where it has one.
#[tactic(auto, using(crate::proofs::PatternsSpelled::line_within), unfolding(cept_parser::specs::Spelling::line_bytes))]
fn add_line(text: &mut Text, pattern: &Pattern, plane: u8, line: u8)
    requires room { HasRoomForBytes 2 text.old }
    requires valid { IsValidPattern pattern.now }
    requires plane { plane < pattern.now.planes }
    requires line { line < pattern.now.h }
    ensures { AddsBytes text.old 2 (line_bytes pattern.now plane line) text.new }
{
    let left = half_line_byte(pattern, plane, line, 0);
    if pattern.w == 12 {
        add_bytes(text, &[left, half_line_byte(pattern, plane, line, 6)]);
    } else {
        add_bytes(text, &[left]);
    }
}

/// Adds a plane: its opener, and all its lines from the top.
#[tactic(auto, unfolding(cept_parser::specs::Spelling::plane_bytes))]
fn add_plane(text: &mut Text, pattern: &Pattern, plane: u8)
    requires room { HasRoomForBytes 25 text.old }
    requires valid { IsValidPattern pattern.now }
    requires plane { plane < pattern.now.planes }
    ensures { AddsBytes text.old 25 (plane_bytes pattern.now plane) text.new }
{
    add_bytes(text, &[0x30 + plane]);
    for line in 0..pattern.h {
        add_line(text, pattern, plane, line);
    }
}

/// Adds all planes of a pattern, ascending.
#[tactic(auto, unfolding(cept_parser::specs::Spelling::pattern_bytes))]
pub fn add_pattern(text: &mut Text, pattern: &Pattern)
    requires room { HasRoomForBytes 101 text.old }
    requires valid { IsValidPattern pattern.now }
    ensures { AddsBytes text.old 101 (pattern_bytes pattern.now) text.new }
{
    for plane in 0..pattern.planes {
        add_plane(text, pattern, plane);
    }
}
