//! What an item says, in records of one size, whose fields are numbers alone.
ghost use Rattle.std.specs.Prelude.{◌≡◌, length};
ghost use Rattle.cept_codes.specs.Look.{IsValidLook, IsValidShape};
ghost use Rattle.cept_live.specs.Notices.{change_notice, colour_of};
ghost use Rattle.cept_live.specs.Notices.{colours_of, pixels_of};
ghost use Rattle.cept_report.specs.Text.{named_reason};
ghost use Rattle.cept_live.specs.Notices.{refusal_notice, sign_of};

use cept_codes::{Look, Paint, Pos, Reason, Shape};
use cept_control::numbers::{bit, flash_number, set_number};

/// A colour: red, green and blue, each 0 to 15; `behind` is 1 where what lies behind the screen is
/// shown.
#[repr(C)]
#[derive(Clone, Copy, Debug, PartialEq, Eq)]
pub struct Colour {
    pub red: u8,
    pub green: u8,
    pub blue: u8,
    pub behind: u8,
}

/// What is drawn: `kind` is 0 for nothing, 1 for a sign and 2 for a downloaded pattern.
#[repr(C)]
#[derive(Clone, Copy, Debug, PartialEq, Eq)]
pub struct Sign {
    pub kind: u8,
    pub set: u8,
    pub code: u8,
    pub accent: u8,
}

/// A downloaded pattern: its pixels as in `cept_codes::Pattern`, its size, the number of its planes,
/// and so many inks with their colours. All is 0 where there is none.
#[repr(C)]
#[derive(Clone, Copy, Debug, PartialEq, Eq)]
pub struct Pixels {
    pub bits: [u64; 9],
    pub w: u8,
    pub h: u8,
    pub planes: u8,
    pub inks: u8,
    pub colours: [Colour; 16],
}

/// A place that an item changes, where `kind` is 1, with its new look; or so many refused bytes,
/// where it is 2. `at` is how many bytes stand before the item.
#[repr(C)]
#[derive(Clone, Copy, Debug, PartialEq, Eq)]
pub struct Notice {
    pub at: u64,
    pub kind: u8,
    pub length: u8,
    pub reason: u8,
    pub row: u8,
    pub column: u8,
    pub sign: Sign,
    pub dy: u8,
    pub dx: u8,
    pub w: u8,
    pub h: u8,
    pub fore: Colour,
    pub back: Colour,
    pub flash: u8,
    pub conceal: u8,
    pub lined: u8,
    pub boxed: u8,
    pub pattern: Pixels,
}

const NO_COLOUR: Colour = Colour {
    red: 0,
    green: 0,
    blue: 0,
    behind: 0,
};

const NO_SIGN: Sign = Sign {
    kind: 0,
    set: 0,
    code: 0,
    accent: 0,
};

const NO_PIXELS: Pixels = Pixels {
    bits: [0; 9],
    w: 0,
    h: 0,
    planes: 0,
    inks: 0,
    colours: [NO_COLOUR; 16],
};

#[tactic(auto, unfolding(cept_report::specs::Text::named_reason))]
fn reason_number(reason: Reason) -> u8
    ensures { result ≡ (named_reason reason).0 }
{
    match reason {
        Reason::UnassignedControl => 1,
        Reason::UnknownEscape => 2,
        Reason::UnknownCsi => 3,
        Reason::UnknownUnit => 4,
        Reason::BadParameter => 5,
        Reason::Interrupted => 6,
        Reason::Truncated => 7,
    }
}

pub(crate) fn colour_of(paint: Paint) -> Colour
    ensures { result ≡ colour_of paint }
{
    match paint {
        Paint::Ink(rgb) => Colour {
            red: rgb.r,
            green: rgb.g,
            blue: rgb.b,
            behind: 0,
        },
        Paint::Video => Colour {
            red: 0,
            green: 0,
            blue: 0,
            behind: 1,
        },
    }
}

/// The colours of sixteen paints.
fn colours_of(paints: &[Paint; 16]) -> [Colour; 16]
    requires { length paints.now ≡ 16 }
    ensures { result ≡ colours_of paints.now }
{
    let mut colours = [NO_COLOUR; 16];
    for i in 0..16usize {
        colours[i] = colour_of(paints[i]);
    }
    colours
}

#[inline(always)]
fn sign_of(shape: &Shape) -> Sign
    ensures { result ≡ sign_of shape.now }
{
    match shape {
        Shape::Space => NO_SIGN,
        Shape::Char(glyph) => Sign {
            kind: 1,
            set: set_number(glyph.set),
            code: glyph.code,
            accent: glyph.accent,
        },
        Shape::Drcs(_, _) => Sign {
            kind: 2,
            set: 0,
            code: 0,
            accent: 0,
        },
    }
}

#[inline(always)]
fn pixels_of(shape: &Shape) -> Pixels
    requires { IsValidShape shape.now }
    ensures { result ≡ pixels_of shape.now }
{
    match shape {
        Shape::Space => NO_PIXELS,
        Shape::Char(_) => NO_PIXELS,
        Shape::Drcs(pattern, inks) => Pixels {
            bits: pattern.bits,
            w: pattern.w,
            h: pattern.h,
            planes: pattern.planes,
            inks: inks.count,
            colours: colours_of(&inks.paints),
        },
    }
}

impl Notice {
    /// A place that changed at the item with so many bytes before it, with its new look.
    // In place, with what it calls: every sign that is fed becomes a notice.
    #[inline(always)]
    pub(crate) fn of_change(at: u64, place: Pos, look: &Look) -> Notice
        requires { IsValidLook look.now }
        ensures { result ≡ change_notice at place look.now }
    {
        Notice {
            at,
            kind: 1,
            length: 0,
            reason: 0,
            row: place.row(),
            column: place.col(),
            sign: sign_of(&look.shape),
            dy: look.dy,
            dx: look.dx,
            w: look.w,
            h: look.h,
            fore: colour_of(look.fore),
            back: colour_of(look.back),
            flash: flash_number(look.flash),
            conceal: bit(look.conceal),
            lined: bit(look.lined),
            boxed: bit(look.boxed),
            pattern: pixels_of(&look.shape),
        }
    }

    /// So many refused bytes, with so many bytes before them.
    pub(crate) fn of_refusal(at: u64, length: u8, reason: Reason) -> Notice
        ensures { result ≡ refusal_notice at length reason }
    {
        Notice {
            at,
            kind: 2,
            length,
            reason: reason_number(reason),
            row: 0,
            column: 0,
            sign: NO_SIGN,
            dy: 0,
            dx: 0,
            w: 0,
            h: 0,
            fore: NO_COLOUR,
            back: NO_COLOUR,
            flash: 0,
            conceal: 0,
            lined: 0,
            boxed: 0,
            pattern: NO_PIXELS,
        }
    }
}
