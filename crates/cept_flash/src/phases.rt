ghost use Rattle.std.specs.Prelude.{◌≡◌, ◌<◌, ◌==◌, ◌||◌};
ghost use Rattle.cept_codes.specs.Look.{IsValidLook};
ghost use Rattle.cept_flash.specs.SeenFlashing.{flashes_seen, has_light};
ghost use Rattle.cept_flash.specs.inside.SeenFlashing.{differ, turns};
ghost use Rattle.cept_flash.specs.Phases.{halved, is_dimmed, is_on, look_at_phase, next_phase};

use cept_codes::{Flash, Look, Paint, Rgb, Shape};

/// Whether what flashes so is seen at a phase.
#[inline(always)]
pub(crate) fn is_on(flash: Flash, phase: u8) -> bool
    ensures { result ≡ is_on flash phase }
{
    match flash {
        Flash::Steady | Flash::Reduced => true,
        Flash::Plain => phase < 3,
        Flash::Inverted => 3 <= phase,
        Flash::Fast1 => phase < 2,
        Flash::Fast2 => 2 <= phase && phase < 4,
        Flash::Fast3 => 4 <= phase,
    }
}

/// Whether it is seen at half its intensity.
#[inline(always)]
pub(crate) fn is_dimmed(flash: Flash, phase: u8) -> bool
    ensures { result ≡ is_dimmed flash phase }
{
    match flash {
        Flash::Reduced => 3 <= phase,
        Flash::Steady | Flash::Plain | Flash::Inverted => false,
        Flash::Fast1 | Flash::Fast2 | Flash::Fast3 => false,
    }
}

/// Whether what flashes so and is seen flashing has another look at the one phase than at the other.
#[inline(always)]
pub(crate) fn turns(flash: Flash, before: u8, after: u8) -> bool
    ensures { result ≡ turns flash before after }
{
    differ(is_on(flash, before), is_on(flash, after))
        || differ(is_dimmed(flash, before), is_dimmed(flash, after))
}

/// Whether one holds and the other doesn't.
#[inline(always)]
fn differ(a: bool, b: bool) -> bool
    ensures { result ≡ differ a b }
{
    if a { !b } else { b }
}

/// The phase after this one: 5 leads to 0.
pub fn next_phase(phase: u8) -> u8
    requires { phase < 6 }
    ensures next { result ≡ next_phase phase }
    ensures valid { result < 6 }
{
    if phase < 5 { phase + 1 } else { 0 }
}

/// A paint at half its intensity, rounded down.
fn halved(paint: Paint) -> Paint
    ensures { result ≡ halved paint }
{
    match paint {
        Paint::Ink(Rgb { r, g, b }) => Paint::Ink(Rgb {
            r: r / 2,
            g: g / 2,
            b: b / 2,
        }),
        Paint::Video => Paint::Video,
    }
}

/// A look at a phase, 0 to 5.
pub fn look_at_phase(look: &Look, phase: u8) -> Look
    requires { IsValidLook look.now }
    ensures look { result ≡ look_at_phase look.now phase }
    ensures valid { IsValidLook result }
{
    let on = is_on(look.flash, phase);
    Look {
        shape: if on { look.shape } else { Shape::Space },
        fore: if is_dimmed(look.flash, phase) {
            halved(look.fore)
        } else {
            look.fore
        },
        flash: Flash::Steady,
        lined: on && look.lined,
        ..*look
    }
}

/// Whether half of a paint's intensity is less than the whole.
fn has_light(paint: Paint) -> bool
    ensures { result ≡ has_light paint }
{
    match paint {
        Paint::Ink(Rgb { r, g, b }) => !(r == 0 && g == 0 && b == 0),
        Paint::Video => false,
    }
}

/// Whether a look isn't the same at all phases.
pub(crate) fn flashes_seen(look: &Look) -> bool
    ensures { result ≡ flashes_seen look.now }
{
    match look.flash {
        Flash::Steady => false,
        Flash::Reduced => has_light(look.fore),
        Flash::Plain | Flash::Inverted | Flash::Fast1 | Flash::Fast2 | Flash::Fast3 => {
            !matches!(look.shape, Shape::Space) || look.lined
        }
    }
}
