ghost use Rattle.std.specs.Prelude.{◌≡◌, ◌↔◌, IsTrue, false};
ghost use Rattle.cept_rows.specs.SmallLooks.{has_pattern, look_kept, paint_kept, shape_kept};

use crate::drawing::Drawing;
use cept_codes::{Flash, Glyph, Look, Paint, Part, Rgb, SetId, Shape};

/// What is drawn: nothing, a sign or a pattern.
#[derive(Clone, Copy, PartialEq, Eq)]
pub(crate) enum Kind {
    Space,
    Char,
    Drcs,
}

/// What is drawn. Nothing and a pattern have the sign `P` 0/0.
#[derive(Clone, Copy)]
pub(crate) struct Sign {
    pub(crate) kind: Kind,
    pub(crate) set: SetId,
    pub(crate) code: u8,
    pub(crate) accent: u8,
}

/// A paint. What shows the picture behind has the colour 0, 0, 0.
#[derive(Clone, Copy)]
pub(crate) struct Tint {
    pub(crate) video: bool,
    pub(crate) r: u8,
    pub(crate) g: u8,
    pub(crate) b: u8,
}

/// What is done to a sign.
#[derive(Clone, Copy)]
pub(crate) struct Style {
    pub(crate) flash: Flash,
    pub(crate) conceal: bool,
    pub(crate) lined: bool,
    pub(crate) boxed: bool,
}

/// A look in fields of one byte, which are compared and copied at once. Of a pattern it says only
/// that one is drawn: which, stands beside it.
#[derive(Clone, Copy)]
pub(crate) struct SmallLook {
    pub(crate) sign: Sign,
    pub(crate) part: Part,
    pub(crate) fore: Tint,
    pub(crate) back: Tint,
    pub(crate) style: Style,
}

impl Sign {
    /// Nothing is drawn.
    pub(crate) const NOTHING: Sign = Sign {
        kind: Kind::Space,
        set: SetId::P,
        code: 0,
        accent: 0,
    };

    /// A pattern is drawn.
    pub(crate) const PATTERN: Sign = Sign {
        kind: Kind::Drcs,
        ..Sign::NOTHING
    };
}

impl SmallLook {
    /// A space, white on black, steady, with no attribute.
    pub(crate) const BLANK: SmallLook = SmallLook {
        sign: Sign::NOTHING,
        part: Part {
            dy: 0,
            dx: 0,
            w: 1,
            h: 1,
        },
        fore: Tint {
            video: false,
            r: 15,
            g: 15,
            b: 15,
        },
        back: Tint {
            video: false,
            r: 0,
            g: 0,
            b: 0,
        },
        style: Style {
            flash: Flash::Steady,
            conceal: false,
            lined: false,
            boxed: false,
        },
    };
}

impl SmallLook {
    /// Whether a pattern is drawn.
    #[inline(always)]
    pub(crate) fn has_pattern(&self) -> bool
        ensures { result ≡ has_pattern self.now }
    {
        matches!(self.sign.kind, Kind::Drcs)
    }
}

/// Whether two small looks are the same.
// All fields of one byte joined by `&`, since `&&` makes a branch of each.
#[inline(always)]
pub(crate) fn same(a: &SmallLook, b: &SmallLook) -> bool
    ensures { IsTrue result ↔ (a.now ≡ b.now) }
{
    same_sign(&a.sign, &b.sign)
        & same_part(&a.part, &b.part)
        & same_tint(&a.fore, &b.fore)
        & same_tint(&a.back, &b.back)
        & same_style(&a.style, &b.style)
}

#[inline(always)]
fn same_sign(a: &Sign, b: &Sign) -> bool
    ensures { IsTrue result ↔ (a.now ≡ b.now) }
{
    (a.kind == b.kind) & (a.set == b.set) & (a.code == b.code) & (a.accent == b.accent)
}

#[inline(always)]
fn same_part(a: &Part, b: &Part) -> bool
    ensures { IsTrue result ↔ (a.now ≡ b.now) }
{
    (a.dy == b.dy) & (a.dx == b.dx) & (a.w == b.w) & (a.h == b.h)
}

#[inline(always)]
fn same_tint(a: &Tint, b: &Tint) -> bool
    ensures { IsTrue result ↔ (a.now ≡ b.now) }
{
    (a.video == b.video) & (a.r == b.r) & (a.g == b.g) & (a.b == b.b)
}

#[inline(always)]
fn same_style(a: &Style, b: &Style) -> bool
    ensures { IsTrue result ↔ (a.now ≡ b.now) }
{
    (a.flash == b.flash) & (a.conceal == b.conceal) & (a.lined == b.lined) & (a.boxed == b.boxed)
}

/// The whole look, with the drawing of its pattern.
pub(crate) fn look_kept(small: &SmallLook, drawing: &Drawing) -> Look
    ensures { result ≡ look_kept small.now drawing.now }
{
    Look {
        shape: shape_kept(small.sign, drawing),
        dy: small.part.dy,
        dx: small.part.dx,
        w: small.part.w,
        h: small.part.h,
        fore: paint_kept(small.fore),
        back: paint_kept(small.back),
        flash: small.style.flash,
        conceal: small.style.conceal,
        lined: small.style.lined,
        boxed: small.style.boxed,
    }
}

fn shape_kept(sign: Sign, drawing: &Drawing) -> Shape
    ensures { result ≡ shape_kept sign drawing.now }
{
    match sign.kind {
        Kind::Space => Shape::Space,
        Kind::Char => Shape::Char(Glyph {
            set: sign.set,
            code: sign.code,
            accent: sign.accent,
        }),
        Kind::Drcs => Shape::Drcs(drawing.pattern, drawing.inks),
    }
}

fn paint_kept(tint: Tint) -> Paint
    ensures { result ≡ paint_kept tint }
{
    if tint.video {
        Paint::Video
    } else {
        Paint::Ink(Rgb {
            r: tint.r,
            g: tint.g,
            b: tint.b,
        })
    }
}
