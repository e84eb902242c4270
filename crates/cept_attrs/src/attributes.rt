ghost use Rattle.std.specs.Prelude.{◌≡◌};
ghost use Rattle.cept_codes.specs.Attribute.{IsValidFull, IsValidPen};
ghost use Rattle.cept_profile.specs.Attributes.{cascade, first_value};

use cept_codes::{Flash, Full, Pen, Size};

/// The attributes of a sign that took a pen: each class by the pen, else by the row, else by the
/// screen, else the default. The defaults are entry 7 on entry 0, steady and of single size, with
/// no other attribute. The order is this profile's own.
pub fn cascade(pen: &Pen, row: &Pen, screen: &Pen) -> Full
    ensures attributes { result ≡ cascade pen.now row.now screen.now }
    ensures valid { IsValidPen pen.now → IsValidPen row.now → IsValidPen screen.now
        → IsValidFull result }
{
    Full {
        fore: first_value(pen.fore, row.fore, screen.fore, 7),
        back: first_value(pen.back, row.back, screen.back, 0),
        flash: first_value(pen.flash, row.flash, screen.flash, Flash::Steady),
        conceal: first_value(pen.conceal, row.conceal, screen.conceal, false),
        lined: first_value(pen.lined, row.lined, screen.lined, false),
        boxed: first_value(pen.boxed, row.boxed, screen.boxed, false),
        size: first_value(pen.size, row.size, screen.size, Size::Normal),
        invert: first_value(pen.invert, row.invert, screen.invert, false),
    }
}

/// The first that is set, else the default.
fn first_value<T: Copy>(pen: Option<T>, row: Option<T>, screen: Option<T>, default: T) -> T
    ensures { result ≡ first_value pen row screen default }
{
    pen.or(row).or(screen).unwrap_or(default)
}
