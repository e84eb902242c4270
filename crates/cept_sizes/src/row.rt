ghost use Rattle.std.specs.Prelude.{◌≡◌, ℕ, ◌+◌, ◌-◌, ◌<◌, ◌≤◌, ◌&&◌, nat_lt, not, Bool, List};
ghost use Rattle.cept_codes.specs.declared.attribute.Size.{Size};
ghost use Rattle.cept_codes.specs.declared.attribute.Size.TheVariants as sizes;
ghost use Rattle.cept_codes.specs.declared.look.Part.{Part};
ghost use Rattle.cept_codes.specs.Table.{row_of};
ghost use Rattle.cept_profile.specs.Tiling.{IsTiled, IsTiledRow, parts_in};
ghost use Rattle.cept_profile.specs.Tiling.{column_entry, covers_below, flat_parts, is_wide};
ghost use Rattle.cept_profile.specs.Tiling.{single_part, tiled_row};
ghost use Rattle.cept_sizes.specs.Parts.{AreValidParts};

use crate::part::{SINGLE, below, covers_below, is_high, is_single, is_wide, origin, to_the_right};
use cept_codes::{Part, Size};

/// The size that is wanted in each column of a row.
#[derive(Clone, Copy)]
pub struct Wants {
    pub sizes: [Size; 40],
}

/// The part of a sign that each place of a row shows.
#[derive(Clone, Copy)]
pub struct Parts {
    pub parts: [Part; 40],
}

impl Parts {
    /// Forty whole signs.
    pub fn flat() -> Parts
        ensures parts { result.parts ≡ flat_parts }
        ensures valid { AreValidParts result.parts }
    {
        Parts {
            parts: [SINGLE; 40],
        }
    }
}

/// The parts of the row beneath this one, in which these sizes are wanted.
pub fn tile_row(above: &Parts, wants: &Wants, last: bool) -> Parts
    requires above { AreValidParts above.now.parts }
    ensures row { result.parts
        ≡ tiled_row above.now.parts (column_entry sizes.Normal wants.now.sizes) last }
    ensures tiled { IsTiledRow above.now.parts (column_entry sizes.Normal wants.now.sizes) last
        result.parts }
    ensures beneath { (wanted : ℕ → ℕ → Size) (is_last : ℕ → Bool) (t : List (List Part)) (r : ℕ)
        → IsTiled wanted is_last t → 1 ≤ r → r ≤ 24 → above.now.parts ≡ parts_in t (r - 1)
        → wants.now.sizes ≡ row_of (wanted r) → last ≡ is_last r → result.parts ≡ parts_in t r }
    ensures valid { AreValidParts result.parts }
{
    let mut parts = [SINGLE; 40];
    let mut wide = false;
    let mut high = false;
    for k in 0..40usize {
        let here = above.parts[k];
        if covers_below(here) {
            parts[k] = below(here);
            wide = false;
        } else if wide {
            parts[k] = to_the_right(origin(true, high));
            wide = false;
        } else if is_single(wants.sizes[k]) {
            parts[k] = SINGLE;
        } else {
            wide = is_wide_there(wants.sizes[k], above, k);
            high = is_high(wants.sizes[k]) & !last;
            parts[k] = origin(wide, high);
        }
    }
    Parts { parts }
}

/// Whether a sign of this size is wide at this index: not in the last column, and not beside a
/// place that is covered from above.
#[inline(always)]
fn is_wide_there(size: Size, above: &Parts, index: usize) -> bool
    requires { index < 40 }
    ensures { result ≡ (is_wide size && nat_lt (index + 1) 40
        && not (covers_below (column_entry single_part above.now.parts (index + 2)))) }
{
    is_wide(size) && index < 39 && !covers_below(above.parts[index + 1])
}
