ghost use Rattle.std.specs.Prelude.{◌≡◌, ◌+◌, ◌*◌, ◌≤◌, ◌++◌, length, take};
ghost use Rattle.std.specs.Int.{div_ceil};
ghost use Rattle.std.specs.List.{flat_map};
ghost use Rattle.arrayvec.specs.ArrayVec.{array_vec_len};
ghost use Rattle.cept_codes.specs.Look.{IsValidInks, IsValidPattern};
ghost use Rattle.cept_report.specs.Room.{Adds, HasRoomFor};
ghost use Rattle.cept_report.specs.Text.{hex_word, ink_texts, pattern_text};

use crate::line::{Line, add_byte, add_hex_word, add_small};
use crate::paint::add_paints;
use cept_codes::{Inks, Pattern};

/// The words that the pixels of a pattern need.
fn pixel_words(pattern: &Pattern) -> &[u64]
    requires { IsValidPattern pattern.now }
    ensures words { result.now
        ≡ take (div_ceil (pattern.now.w * pattern.now.h * pattern.now.planes) 64) pattern.now.bits }
    ensures nine { length result.now ≤ 9 }
{
    let pixels = usize::from(pattern.w) * usize::from(pattern.h) * usize::from(pattern.planes);
    &pattern.bits[..pixels.div_ceil(64)]
}

/// Adds words one after the other.
fn add_words(line: &mut Line, words: &[u64])
    requires { array_vec_len line.old + 16 * length words.now ≤ 248 }
    ensures text { line.new.items ≡ line.old.items ++ flat_map hex_word words.now }
    ensures len { array_vec_len line.new ≡ array_vec_len line.old + 16 * length words.now }
{
    for word in words {
        add_hex_word(line, *word);
    }
}

/// Adds a pattern: its size, the number of its planes, and its pixels.
#[tactic(auto, unfolding(crate::specs::Text::pattern_text))]
pub fn add_pattern(line: &mut Line, pattern: &Pattern)
    requires room { HasRoomFor 153 line.old }
    requires valid { IsValidPattern pattern.now }
    ensures { Adds line.old 153 (pattern_text pattern.now) line.new }
{
    add_byte(line, b'%');
    add_small(line, pattern.w);
    add_byte(line, b'x');
    add_small(line, pattern.h);
    add_byte(line, b'x');
    add_small(line, pattern.planes);
    add_byte(line, b'/');
    add_words(line, pixel_words(pattern));
}

/// Adds the inks of a pattern of so many planes. One of one plane has none.
#[tactic(auto, unfolding(crate::specs::Text::ink_texts))]
pub fn add_inks(line: &mut Line, planes: u8, inks: &Inks)
    requires room { HasRoomFor 49 line.old }
    requires valid { IsValidInks inks.now planes }
    ensures { Adds line.old 49 (ink_texts planes inks.now) line.new }
{
    if planes != 1 {
        add_byte(line, b'/');
        add_paints(line, &inks.paints[..usize::from(inks.count)]);
    }
}
