//! Laws of what a row names: it is made of its own cells, of the parts that its places show and of
//! what the row above names.
ghost use Rattle.std.specs.Prelude.{◌≡◌, ℕ, ◌-◌, ◌≤◌, [], IsTrue};
ghost use Rattle.cept_codes.specs.Place.{OnScreen};
ghost use Rattle.cept_profile.specs.Look.{looks_of, part_of, parts_of};
ghost use Rattle.cept_profile.specs.Names.{Names, names_at};
ghost use Rattle.cept_profile.specs.NamesFromAbove.{default_names, names_from_above};
ghost use Rattle.cept_profile.specs.NamesFromAbove.{own_names};
ghost use Rattle.cept_profile.specs.RowsFromAbove.{look_seen};
ghost use Rattle.cept_profile.specs.State.{Core, core};
ghost use Rattle.cept_profile.specs.Tiling.{covers_below, part_at};

/// A place that is covered from above names what the place above it names, one that is covered from
/// the left what its left neighbour names, and any other what stands there itself. So the names of a
/// row come from its own cells, from its parts and from the names of those places of the row above
/// that cover one below.
pub fn names_come_from_above_or_the_left()
    ensures above { (k : Core) (r c : ℕ) → OnScreen r c → 1 ≤ (part_at (parts_of k) r c).dy
        → names_at k r c ≡ names_at k (r - 1) c }
    ensures left { (k : Core) (r c : ℕ) → OnScreen r c → (part_at (parts_of k) r c).dy ≡ 0
        → 1 ≤ (part_at (parts_of k) r c).dx → names_at k r c ≡ names_at k r (c - 1) }
    ensures itself { (k : Core) (r c : ℕ) → OnScreen r c → (part_at (parts_of k) r c).dy ≡ 0
        → (part_at (parts_of k) r c).dx ≡ 0 → names_at k r c ≡ own_names k r c }
    ensures row { (k : Core) (r c : ℕ) → OnScreen r c
        → names_at k r c
        ≡ names_from_above (names_at k (r - 1)) (part_at (parts_of k) r) (own_names k r) c }
    ensures covered { (k : Core) (above : ℕ → Names) (r c : ℕ) → OnScreen r c
        → ((d : ℕ) → OnScreen (r - 1) d → IsTrue (covers_below (part_at (parts_of k) (r - 1) d))
        → above d ≡ names_at k (r - 1) d)
        → names_at k r c ≡ names_from_above above (part_at (parts_of k) r) (own_names k r) c }
{}

/// The part of a look that is seen in the grid is that of its place, also off the screen, where both
/// are whole.
pub fn looks_show_the_parts()
    ensures { (k : Core) (r c : ℕ) → r ≤ 24
        → part_of (look_seen (looks_of k) r c) ≡ part_at (parts_of k) r c }
{}

/// Before any command each place names white on black, and no sign of the downloaded set.
pub fn the_first_names()
    ensures { (r c : ℕ) → OnScreen r c → names_at (core []) r c ≡ default_names }
{}
