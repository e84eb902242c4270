//! The looks that several of the tests compare with.

use cept_codes::{Glyph, Look, SetId, Shape};

/// The look of a sign of the primary set.
pub(crate) fn sign(code: u8) -> Look {
    Look {
        shape: Shape::Char(Glyph {
            set: SetId::P,
            code,
            accent: 0,
        }),
        ..Look::BLANK
    }
}
