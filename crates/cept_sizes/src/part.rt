ghost use Rattle.std.specs.Prelude.{◌≡◌, ◌&&◌, nat_lt, not};
ghost use Rattle.cept_profile.specs.Tiling.{covers_below, is_high, is_wide};
ghost use Rattle.cept_profile.specs.Tiling.{origin_part};

use cept_codes::{Part, Size};

/// The whole of a sign of single size.
pub(crate) const SINGLE: Part = Part {
    dy: 0,
    dx: 0,
    w: 1,
    h: 1,
};

/// Whether a sign of this size is twice as high.
#[inline(always)]
pub(crate) fn is_high(size: Size) -> bool
    ensures { result ≡ is_high size }
{
    matches!(size, Size::High | Size::Both)
}

/// Whether a sign of this size is twice as wide.
#[inline(always)]
pub(crate) fn is_wide(size: Size) -> bool
    ensures { result ≡ is_wide size }
{
    matches!(size, Size::Wide | Size::Both)
}

/// Whether a sign of this size is neither.
#[inline(always)]
pub fn is_single(size: Size) -> bool
    ensures { result ≡ (not (is_high size) && not (is_wide size)) }
{
    matches!(size, Size::Normal)
}

/// Whether a part covers the place below it.
#[inline(always)]
pub(crate) fn covers_below(part: Part) -> bool
    ensures { result ≡ covers_below part }
{
    (part.dy == 0) & (part.h == 2)
}

/// The upper left part of a sign, twice as wide or high where this is so.
#[inline(always)]
pub(crate) fn origin(wide: bool, high: bool) -> Part
    ensures { result ≡ origin_part wide high }
{
    Part {
        dy: 0,
        dx: 0,
        w: 1 + u8::from(wide),
        h: 1 + u8::from(high),
    }
}

/// The upper left part of a sign of this size in a column of a row, where nothing covers the place:
/// it isn't wide in the last column, nor beside a place that is covered from above, and not high in
/// a last row.
#[inline(always)]
pub fn origin_there(size: Size, column: u8, beside: bool, last: bool) -> Part
    ensures { result
        ≡ origin_part (is_wide size && nat_lt column 40 && not beside) (is_high size && not last) }
{
    origin(
        is_wide(size) & (column < 40) & !beside,
        is_high(size) & !last,
    )
}

/// The same part, one place down.
#[inline(always)]
pub fn below(part: Part) -> Part
    ensures { result ≡ record part { dy = 1 } }
{
    Part { dy: 1, ..part }
}

/// The upper part one place to the right.
#[inline(always)]
pub fn to_the_right(part: Part) -> Part
    ensures { result ≡ record part { dy = 0; dx = 1 } }
{
    Part {
        dy: 0,
        dx: 1,
        w: part.w,
        h: part.h,
    }
}
