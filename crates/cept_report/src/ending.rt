//! The end of a line, which is kept for the next one: neighbours often differ in their shapes alone.
ghost use Rattle.std.specs.Prelude.{◌≡◌, ◌+◌, ◌++◌, ◌↔◌, IsTrue};
ghost use Rattle.arrayvec.specs.ArrayVec.{array_vec_len};
ghost use Rattle.cept_profile.specs.Changes.{look_at};
ghost use Rattle.cept_profile.specs.Look.{looks_of};
ghost use Rattle.cept_profile.specs.State.{core_of};
ghost use Rattle.cept_codes.specs.declared.look.Look.{Look};
ghost use Rattle.cept_codes.specs.Look.{IsValidLook, IsValidPaint, blank_look};
ghost use Rattle.cept_report.specs.Ending.{ending_text};
ghost use Rattle.cept_report.specs.inside.Ending.{fields_of, paint_word};
ghost use Rattle.cept_report.specs.Room.{HasRoomFor};

use crate::line::{Line, add_text};
use crate::look::ending_of;
use cept_codes::{Flash, Look, Paint, Part, Pos};
use cept_repaint::Screen;

/// What is done to a shape.
#[derive(Clone, Copy)]
pub struct Style {
    flash: Flash,
    conceal: bool,
    lined: bool,
    boxed: bool,
}

/// The fields of a look that stand after its shape, each paint as a number.
#[derive(Clone, Copy)]
pub struct Fields {
    part: Part,
    fore: u32,
    back: u32,
    style: Style,
}

/// Fields, and how a line ends with them.
#[derive(Drop)]
pub struct Ending {
    fields: Fields,
    text: [u8; 20],
    ghost is: { (look : Look) → IsValidLook look → fields_of look ≡ fields → ending_text look ≡ text },
}

/// A paint as a number, by which it is compared at once.
#[inline(always)]
fn paint_word(paint: &Paint) -> u32
    requires { IsValidPaint paint.now }
    ensures { result ≡ paint_word paint.now }
{
    match paint {
        Paint::Ink(ink) => u32::from(ink.r) + u32::from(ink.g) * 256 + u32::from(ink.b) * 65536,
        Paint::Video => 16777216,
    }
}

/// The fields of a look.
#[inline(always)]
fn fields_of(look: &Look) -> Fields
    requires { IsValidLook look.now }
    ensures { result ≡ fields_of look.now }
{
    Fields {
        part: Part {
            dy: look.dy,
            dx: look.dx,
            w: look.w,
            h: look.h,
        },
        fore: paint_word(&look.fore),
        back: paint_word(&look.back),
        style: Style {
            flash: look.flash,
            conceal: look.conceal,
            lined: look.lined,
            boxed: look.boxed,
        },
    }
}

/// Whether these are the same fields.
// All joined by `&`, since `&&` makes a branch of each.
#[inline(always)]
fn same(a: &Fields, b: &Fields) -> bool
    ensures { IsTrue result ↔ (a.now ≡ b.now) }
{
    let (part, style) = (&a.part, &a.style);
    let (other, its) = (&b.part, &b.style);
    ((part.dy == other.dy) & (part.dx == other.dx) & (part.w == other.w) & (part.h == other.h))
        & (a.fore == b.fore)
        & (a.back == b.back)
        & ((style.flash == its.flash)
            & (style.conceal == its.conceal)
            & (style.lined == its.lined)
            & (style.boxed == its.boxed))
}

impl Ending {
    /// The end of a line with the blank look.
    #[inline(always)]
    #[tactic(auto, using(crate::proofs::Endings::ending_same))]
    pub fn blank() -> Ending
        ensures { result.fields ≡ fields_of blank_look }
    {
        Ending {
            fields: fields_of(&Look::BLANK),
            text: *b" 11.00 FFF 000 S---\n",
        }
    }

    /// Makes it the end of a line with the look at a place.
    // A call of its own, which looks again, since most often the end stays.
    #[inline(never)]
    #[tactic(auto, using(crate::proofs::Endings::ending_same))]
    fn renew(&mut self, at: Pos, screen: &Screen)
        ensures { self.new.fields ≡ fields_of (look_at (looks_of (core_of screen.now)) at) }
    {
        let look = screen.look(at);
        *self = Ending {
            fields: fields_of(&look),
            text: ending_of(&look),
        };
    }
}

/// Adds the fields after the shape, each after a space, and a line feed, of the look at a place of the
/// screen, which is this. They are made only where they differ from those of the line before, which
/// are kept.
#[inline(always)]
pub fn add_ending(line: &mut Line, kept: &mut Ending, look: &Look, at: Pos, screen: &Screen)
    requires room { HasRoomFor 20 line.old }
    requires valid { IsValidLook look.now }
    requires seen { look.now ≡ look_at (looks_of (core_of screen.now)) at }
    ensures text { line.new.items ≡ line.old.items ++ ending_text look.now }
    ensures len { array_vec_len line.new ≡ array_vec_len line.old + 20 }
{
    if !same(&fields_of(look), &kept.fields) {
        kept.renew(at, screen);
    }
    add_text(line, &kept.text);
}
