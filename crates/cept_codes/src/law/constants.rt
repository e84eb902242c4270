//! Laws of the constants: each is what the clauses call it, and a valid value.
ghost use Rattle.std.specs.Prelude.{◌≡◌};
ghost use Rattle.cept_codes.specs.Attribute.{IsValidPen, unset_pen};
ghost use Rattle.cept_codes.specs.Cell.{IsValidCell, blank_cell};
ghost use Rattle.cept_codes.specs.Look.{IsValidPaint, IsValidLook, black_paint, white_paint};
ghost use Rattle.cept_codes.specs.Look.{blank_look};

use crate::attribute::Pen;
use crate::cell::Cell;
use crate::look::{Look, Paint};

/// The constants of code are the words of clauses.
pub fn constants_are_the_words()
    ensures blank_cell { Cell.BLANK ≡ blank_cell }
    ensures unset_pen { Pen.UNSET ≡ unset_pen }
    ensures black_paint { Paint.BLACK ≡ black_paint }
    ensures white_paint { Paint.WHITE ≡ white_paint }
    ensures blank_look { Look.BLANK ≡ blank_look }
{}

/// The words for what is blank, unset, black and white are valid values.
pub fn constants_are_valid()
    ensures blank_cell { IsValidCell blank_cell }
    ensures unset_pen { IsValidPen unset_pen }
    ensures black_paint { IsValidPaint black_paint }
    ensures white_paint { IsValidPaint white_paint }
    ensures blank_look { IsValidLook blank_look }
{}
