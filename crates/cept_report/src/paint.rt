ghost use Rattle.std.specs.Prelude.{◌≡◌, ◌+◌, ◌*◌, ◌≤◌, ◌∷◌, [], ◌++◌, length};
ghost use Rattle.std.specs.List.{AllByRecursion, flat_map};
ghost use Rattle.arrayvec.specs.ArrayVec.{array_vec_len};
ghost use Rattle.cept_codes.specs.Look.{IsValidPaint};
ghost use Rattle.cept_report.specs.Room.{HasRoomFor};
ghost use Rattle.cept_report.specs.Text.{paint_text};

use crate::line::{Line, add_text, hex_digit};
use cept_codes::Paint;

/// The three signs of a paint.
#[inline(always)]
pub fn paint_signs(paint: &Paint) -> (u8, u8, u8)
    requires { IsValidPaint paint.now }
    ensures { paint_text paint.now ≡ result.0 ∷ result.1 ∷ result.2 ∷ [] }
{
    match paint {
        Paint::Ink(ink) => (hex_digit(ink.r), hex_digit(ink.g), hex_digit(ink.b)),
        Paint::Video => (b'-', b'-', b'-'),
    }
}

/// Adds a paint.
fn add_paint(line: &mut Line, paint: &Paint)
    requires room { HasRoomFor 3 line.old }
    requires valid { IsValidPaint paint.now }
    ensures text { line.new.items ≡ line.old.items ++ paint_text paint.now }
    ensures len { array_vec_len line.new ≡ array_vec_len line.old + 3 }
{
    let (first, second, third) = paint_signs(paint);
    add_text(line, &[first, second, third]);
}

/// Adds paints one after the other.
pub fn add_paints(line: &mut Line, paints: &[Paint])
    requires room { array_vec_len line.old + 3 * length paints.now ≤ 248 }
    requires valid { AllByRecursion IsValidPaint paints.now }
    ensures text { line.new.items ≡ line.old.items ++ flat_map paint_text paints.now }
    ensures len { array_vec_len line.new ≡ array_vec_len line.old + 3 * length paints.now }
{
    for paint in paints {
        add_paint(line, paint);
    }
}
