ghost use Rattle.std.specs.Prelude.{◌≡◌, ◌-◌, length};
ghost use Rattle.cept_codes.specs.Stroke.{IsValidStroke};
ghost use Rattle.cept_profile.specs.PageParts.{dclut_list_after, paints_after, patterns_after};
ghost use Rattle.cept_profile.specs.PageParts.{row_pens_after, screen_pen_after};
ghost use Rattle.cept_profile.specs.Pens.{pen_with};

use crate::shifting::shifted_rows;
use cept_codes::{Attr, Pen, Stroke};
use cept_colours::Colours;
use cept_drcs::Patterns;

/// Changes the attributes of rows as a stroke does.
#[tactic(auto, using(crate::proofs::PageParts::row_pens_left))]
pub(crate) fn set_row_pens(stroke: &Stroke, pens: &mut [Pen; 24])
    requires { IsValidStroke stroke.now }
    ensures { pens.new ≡ row_pens_after pens.old stroke.now }
{
    match stroke {
        Stroke::RowAttr(row, attr) => {
            let index = usize::from(*row) - 1;
            pens[index] = pen_with(*attr, pens[index]);
        }
        Stroke::Wipe => *pens = [Pen::UNSET; 24],
        Stroke::Carry(first, last, way) => {
            *pens = shifted_rows(*first, *last, *way, Pen::UNSET, pens);
        }
        // These change no attribute of a row.
        Stroke::Put(_, _)
        | Stroke::Erase(_, _)
        | Stroke::ScreenAttr(_)
        | Stroke::ScreenClear
        | Stroke::Colour(_, _)
        | Stroke::Dclut(_, _)
        | Stroke::ColourDefaults
        | Stroke::DrcsClear
        | Stroke::Drcs(_, _)
        | Stroke::Shift(_, _, _)
        | Stroke::Format(_) => {}
    }
}

/// Changes the attributes of the screen as a stroke does.
pub(crate) fn set_screen_pen(stroke: &Stroke, pen: &mut Pen)
    ensures { pen.new ≡ screen_pen_after pen.old stroke.now }
{
    match stroke {
        Stroke::ScreenAttr(attr) => *pen = pen_with(*attr, *pen),
        Stroke::ScreenClear => *pen = Pen::UNSET,
        // These change no attribute of the screen.
        Stroke::Put(_, _)
        | Stroke::Erase(_, _)
        | Stroke::Wipe
        | Stroke::Shift(_, _, _)
        | Stroke::Carry(_, _, _)
        | Stroke::RowAttr(_, _)
        | Stroke::Colour(_, _)
        | Stroke::Dclut(_, _)
        | Stroke::ColourDefaults
        | Stroke::DrcsClear
        | Stroke::Drcs(_, _)
        | Stroke::Format(_) => {}
    }
}

/// Changes the colour entries and the DCLUT as a stroke does.
#[tactic(auto, using(crate::proofs::PageParts::colours_left))]
pub(crate) fn set_colours(stroke: &Stroke, colours: &mut Colours)
    requires valid { IsValidStroke stroke.now }
    requires entries { length colours.old.paints ≡ 32 }
    requires names { length colours.old.dclut ≡ 4 }
    ensures paints { colours.new.paints ≡ paints_after colours.old.paints stroke.now }
    ensures dclut { colours.new.dclut ≡ dclut_list_after colours.old.dclut stroke.now }
{
    match stroke {
        Stroke::Colour(entry, paint) => colours.set(*entry, *paint),
        Stroke::Dclut(number, entry) => colours.set_dclut(*number, *entry),
        Stroke::ColourDefaults => colours.defaults(),
        // These change no colour.
        Stroke::Put(_, _)
        | Stroke::Erase(_, _)
        | Stroke::Wipe
        | Stroke::Shift(_, _, _)
        | Stroke::Carry(_, _, _)
        | Stroke::RowAttr(_, _)
        | Stroke::ScreenAttr(_)
        | Stroke::ScreenClear
        | Stroke::DrcsClear
        | Stroke::Drcs(_, _)
        | Stroke::Format(_) => {}
    }
}

/// Changes the patterns as a stroke does.
#[tactic(auto, using(crate::proofs::PageParts::patterns_left))]
pub(crate) fn set_patterns(stroke: &Stroke, patterns: &mut Patterns)
    requires valid { IsValidStroke stroke.now }
    requires codes { length patterns.old ≡ 94 }
    ensures { patterns.new ≡ patterns_after patterns.old stroke.now }
{
    match stroke {
        Stroke::Drcs(code, pattern) => patterns.define(*code, *pattern),
        Stroke::DrcsClear => patterns.clear(),
        // These change no pattern.
        Stroke::Put(_, _)
        | Stroke::Erase(_, _)
        | Stroke::Wipe
        | Stroke::Shift(_, _, _)
        | Stroke::Carry(_, _, _)
        | Stroke::RowAttr(_, _)
        | Stroke::ScreenAttr(_)
        | Stroke::ScreenClear
        | Stroke::Colour(_, _)
        | Stroke::Dclut(_, _)
        | Stroke::ColourDefaults
        | Stroke::Format(_) => {}
    }
}

/// A pen with the attribute set.
fn pen_with(attr: Attr, pen: Pen) -> Pen
    ensures { result ≡ pen_with attr pen }
{
    let mut pen = pen;
    match attr {
        Attr::Fore(entry) => pen.fore = Some(entry),
        Attr::Back(entry) => pen.back = Some(entry),
        Attr::NoBack => pen.back = None,
        Attr::Flash(flash) => pen.flash = Some(flash),
        Attr::Conceal(on) => pen.conceal = Some(on),
        Attr::Lined(on) => pen.lined = Some(on),
        Attr::Boxed(on) => pen.boxed = Some(on),
        Attr::Size(size) => pen.size = Some(size),
        Attr::Invert(on) => pen.invert = Some(on),
    }
    pen
}
