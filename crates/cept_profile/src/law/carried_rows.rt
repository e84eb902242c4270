//! Law of attributes of rows: where rows are carried, their attributes go with them.
ghost use Rattle.std.specs.Prelude.{◌≡◌, ℕ};
ghost use Rattle.cept_codes.specs.declared.attribute.Pen.{Pen};
ghost use Rattle.cept_codes.specs.declared.command.Up.{Up as Way};
ghost use Rattle.cept_codes.specs.Attribute.{unset_pen};
ghost use Rattle.cept_profile.specs.Cells.{shifted};
ghost use Rattle.cept_profile.specs.PageParts.{row_pen_after};

use cept_codes::Stroke;

/// Rows that are carried go one up or down with their attributes, and the row that comes free has
/// none. Where only the cells of rows are shifted, the attributes stay.
pub fn attributes_go_with_carried_rows()
    ensures carried { (first last r : ℕ) (way : Way) (was : ℕ → Pen)
        → row_pen_after (Stroke.Carry first last way) was r
        ≡ shifted way first last unset_pen was r }
    ensures stay { (first last r : ℕ) (way : Way) (was : ℕ → Pen)
        → row_pen_after (Stroke.Shift first last way) was r ≡ was r }
{}
