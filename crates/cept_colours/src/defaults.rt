ghost use Rattle.std.specs.Prelude.{◌≡◌};
ghost use Rattle.cept_codes.specs.Look.{IsValidPaint};
ghost use Rattle.cept_profile.specs.Colours.{default_paint, ink};

use cept_codes::{Paint, Rgb};

/// The paint of an entry of the default colour table: 16 to 31 are as 0 to 15.
#[tactic(auto, unfolding(cept_profile::specs::Colours::default_paints))]
pub(crate) fn default_paint(entry: u8) -> Paint
    ensures paint { result ≡ default_paint entry }
    ensures valid { IsValidPaint result }
{
    match entry % 16 {
        0 => ink(0, 0, 0),
        1 => ink(15, 0, 0),
        2 => ink(0, 15, 0),
        3 => ink(15, 15, 0),
        4 => ink(0, 0, 15),
        5 => ink(15, 0, 15),
        6 => ink(0, 15, 15),
        7 => ink(15, 15, 15),
        8 => Paint::Video,
        9 => ink(7, 0, 0),
        10 => ink(0, 7, 0),
        11 => ink(7, 7, 0),
        12 => ink(0, 0, 7),
        13 => ink(7, 0, 7),
        14 => ink(0, 7, 7),
        _ => ink(7, 7, 7),
    }
}

fn ink(r: u8, g: u8, b: u8) -> Paint
    ensures { result ≡ ink r g b }
{
    Paint::Ink(Rgb { r, g, b })
}
