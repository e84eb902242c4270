//! Laws of tiling: whatever sizes are wanted, exactly one table of parts meets the conditions, and
//! its rows are made from the top.
ghost use Rattle.std.specs.Prelude.{◌≡◌, ℕ, ◌-◌, ◌≤◌, Bool, List};
ghost use Rattle.cept_codes.specs.declared.attribute.Size.{Size};
ghost use Rattle.cept_codes.specs.declared.look.Part.{Part};
ghost use Rattle.cept_codes.specs.Look.{IsValidPart};
ghost use Rattle.cept_codes.specs.Place.{OnScreen};
ghost use Rattle.cept_profile.specs.Tiling.{IsTiled, IsTiledRow, part_at, parts_in, tiled_row};
ghost use Rattle.cept_profile.specs.Tiling.{tiled_table};

/// Beneath any parts exactly one row is tiled.
pub fn exactly_one_row_is_tiled()
    ensures one { (above : List Part) (wanted : ℕ → Size) (last : Bool)
        → IsTiledRow above wanted last (tiled_row above wanted last) }
    ensures only { (above row : List Part) (wanted : ℕ → Size) (last : Bool)
        → IsTiledRow above wanted last row → row ≡ tiled_row above wanted last }
{}

/// Whatever sizes are wanted and whichever rows are last, exactly one table is tiled. The row that
/// is tiled beneath one of its rows is its next row.
pub fn exactly_one_table_is_tiled()
    ensures one { (wanted : ℕ → ℕ → Size) (is_last : ℕ → Bool)
        → IsTiled wanted is_last (tiled_table wanted is_last) }
    ensures only { (wanted : ℕ → ℕ → Size) (is_last : ℕ → Bool) (t : List (List Part))
        → IsTiled wanted is_last t → t ≡ tiled_table wanted is_last }
    ensures beneath { (wanted : ℕ → ℕ → Size) (is_last : ℕ → Bool) (t : List (List Part)) (r : ℕ)
        (here : ℕ → Size) → IsTiled wanted is_last t → 1 ≤ r → r ≤ 24
        → ((c : ℕ) → 1 ≤ c → c ≤ 40 → here c ≡ wanted r c)
        → tiled_row (parts_in t (r - 1)) here (is_last r) ≡ parts_in t r }
{}

/// The parts of a tiled table are valid, and the origin of each is on the screen.
pub fn parts_are_valid()
    ensures valid { (wanted : ℕ → ℕ → Size) (is_last : ℕ → Bool) (t : List (List Part)) (r c : ℕ)
        → IsTiled wanted is_last t → OnScreen r c → IsValidPart (part_at t r c) }
    ensures origin { (wanted : ℕ → ℕ → Size) (is_last : ℕ → Bool) (t : List (List Part)) (r c : ℕ)
        → IsTiled wanted is_last t → OnScreen r c
        → OnScreen (r - (part_at t r c).dy) (c - (part_at t r c).dx) }
{}
