ghost use Rattle.std.specs.Prelude.{◌≡◌, ◌↔◌, IsTrue, List, Option};
ghost use Rattle.std.specs.Prelude.{option_copied};
ghost use Rattle.cept_codes.specs.declared.look.Pattern.{Pattern};
ghost use Rattle.cept_profile.specs.Definitions.{inks_of};
ghost use Rattle.cept_profile.specs.Look.{shape_of_sign};
ghost use Rattle.cept_rows.specs.inside.RowsByCell.{pattern_of_sign};
ghost use Rattle.cept_codes.specs.Glyph.{IsValidGlyph};
ghost use Rattle.cept_rows.specs.DrawnWith.{drawn_with};
ghost use Rattle.cept_rows.specs.inside.SmallLooks.{drawing_of};

use cept_codes::{Glyph, Inks, Paint, Pattern, SetId};
use cept_colours::Colours;
use cept_drcs::Patterns;

/// A pattern, and the paints of its pixels.
#[derive(Clone, Copy)]
pub(crate) struct Drawing {
    pub(crate) pattern: Pattern,
    pub(crate) inks: Inks,
}

impl Drawing {
    /// No pattern and no inks.
    pub(crate) const NONE: Drawing = Drawing {
        pattern: Pattern {
            w: 0,
            h: 0,
            planes: 0,
            bits: [0; 9],
        },
        inks: Inks {
            count: 0,
            paints: [Paint::BLACK; 16],
        },
    };
}

/// Whether two drawings are the same.
pub(crate) fn same_drawing(a: &Drawing, b: &Drawing) -> bool
    ensures { IsTrue result ↔ (a.now ≡ b.now) }
{
    a.pattern == b.pattern && a.inks == b.inks
}

/// The drawing of a sign: its pattern with the inks, where it has one.
pub(crate) fn drawing_of_glyph(glyph: &Glyph, colours: &Colours, patterns: &Patterns) -> Drawing
    requires { IsValidGlyph glyph.now }
    ensures { result
        ≡ drawing_of (shape_of_sign (drawn_with colours.now patterns.now) glyph.now) }
{
    match pattern_of(glyph, patterns) {
        Some(pattern) => Drawing {
            pattern: *pattern,
            inks: inks_of(pattern.planes, colours),
        },
        None => Drawing::NONE,
    }
}

/// The pattern of a sign, where it is of the downloaded set and its code has one.
#[inline(always)]
pub(crate) fn pattern_of<'a>(glyph: &Glyph, patterns: &'a Patterns) -> Option<&'a Pattern>
    requires { IsValidGlyph glyph.now }
    ensures { option_copied result ≡ pattern_of_sign patterns.now glyph.now }
{
    patterns.valid_by_type();
    if matches!(glyph.set, SetId::D) && glyph.code < 0x7F {
        patterns.at(glyph.code)
    } else {
        None
    }
}

/// The inks of a pattern of so many planes.
#[tactic(auto, unfolding(cept_profile::specs::Definitions::inks_of))]
fn inks_of(planes: u8, colours: &Colours) -> Inks
    ensures { (patterns : List (Option Pattern))
        → result ≡ inks_of (drawn_with colours.now patterns) planes }
{
    if planes == 1 {
        Drawing::NONE.inks
    } else if planes == 2 {
        inks_of_two_planes(colours)
    } else {
        inks_of_four_planes(colours)
    }
}

/// The paints of the colour entries that the DCLUT names.
fn inks_of_two_planes(colours: &Colours) -> Inks
    ensures { (patterns : List (Option Pattern))
        → result ≡ inks_of (drawn_with colours.now patterns) 2 }
{
    let mut paints = [Paint::BLACK; 16];
    for i in 0..4u8 {
        paints[usize::from(i)] = colours.paint(colours.dclut(i));
    }
    Inks { count: 4, paints }
}

/// The paints of the colour entries 16 to 31.
fn inks_of_four_planes(colours: &Colours) -> Inks
    ensures { (patterns : List (Option Pattern))
        → result ≡ inks_of (drawn_with colours.now patterns) 4 }
{
    let mut paints = [Paint::BLACK; 16];
    for i in 0..16u8 {
        paints[usize::from(i)] = colours.paint(16 + i);
    }
    Inks { count: 16, paints }
}
