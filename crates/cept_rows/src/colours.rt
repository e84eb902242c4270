ghost use Rattle.std.specs.Prelude.{◌≡◌, if◌then◌else◌};
ghost use Rattle.cept_codes.specs.Attribute.{IsValidFull};
ghost use Rattle.cept_profile.specs.Colours.{paint_over};
ghost use Rattle.cept_profile.specs.PageParts.{paint_in};
ghost use Rattle.cept_rows.specs.SmallLooks.{tint_of};

use crate::small_look::Tint;
use cept_codes::{Full, Paint};
use cept_colours::Colours;

/// The paint of the foreground. One that would show the picture behind is as the background.
#[inline(always)]
pub(crate) fn fore_of(full: &Full, colours: &Colours) -> Tint
    requires { IsValidFull full.now }
    ensures { let f = full.now in
        result
        ≡ tint_of (paint_over (paint_in colours.now.paints (if f.invert then f.back else f.fore))
        (paint_in colours.now.paints (if f.invert then f.fore else f.back))) }
{
    let fore = tint_of(colours.paint(if full.invert { full.back } else { full.fore }));
    if fore.video {
        back_of(full, colours)
    } else {
        fore
    }
}

/// The paint of the background, which under invert is that of the entry of the foreground.
#[inline(always)]
pub(crate) fn back_of(full: &Full, colours: &Colours) -> Tint
    requires { IsValidFull full.now }
    ensures { let f = full.now in
        result ≡ tint_of (paint_in colours.now.paints (if f.invert then f.fore else f.back)) }
{
    tint_of(colours.paint(if full.invert { full.fore } else { full.back }))
}

/// A paint in little space.
#[inline(always)]
pub(crate) fn tint_of(paint: Paint) -> Tint
    ensures { result ≡ tint_of paint }
{
    match paint {
        Paint::Ink(colour) => Tint {
            video: false,
            r: colour.r,
            g: colour.g,
            b: colour.b,
        },
        Paint::Video => Tint {
            video: true,
            r: 0,
            g: 0,
            b: 0,
        },
    }
}
