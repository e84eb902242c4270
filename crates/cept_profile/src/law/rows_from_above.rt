//! Laws of rows: the looks of a row are made of its own cells and of the looks of the row above,
//! and stay where these stay.
ghost use Rattle.std.specs.Prelude.{◌≡◌, ℕ, ◌-◌, ◌≤◌, Bool, false, List, map, IsTrue, IsFalse};
ghost use Rattle.cept_codes.specs.declared.attribute.Size.{Size};
ghost use Rattle.cept_codes.specs.declared.attribute.Size.TheVariants as sizes;
ghost use Rattle.cept_codes.specs.declared.look.Look.{Look};
ghost use Rattle.cept_codes.specs.declared.look.Part.{Part};
ghost use Rattle.cept_codes.specs.Place.{OnScreen};
ghost use Rattle.cept_codes.specs.Table.{IsTable};
ghost use Rattle.cept_profile.specs.Edges.{edges_of_core, is_last};
ghost use Rattle.cept_profile.specs.Look.{look, looks_of, own_look};
ghost use Rattle.cept_profile.specs.Look.{own_size, part_of, parts_of};
ghost use Rattle.cept_profile.specs.RowsFromAbove.{covering, is_covered_otherwise, look_seen};
ghost use Rattle.cept_profile.specs.RowsFromAbove.{look_of_origin, look_with_part, looks_in, row_from_above};
ghost use Rattle.cept_profile.specs.State.{Core};
ghost use Rattle.cept_profile.specs.Tiling.{IsTiled, covers_below, is_covered_from_left, part_at};

/// The parts of a core are the one table that is tiled by the sizes of its own cells; each place
/// shows its part of what stands at its origin, which is on the screen.
pub fn the_parts_of_a_core_are_the_tiled_ones()
    ensures tiled { (k : Core) → IsTiled (own_size k) (is_last (edges_of_core k)) (parts_of k) }
    ensures only { (k : Core) (t : List (List Part))
        → IsTiled (own_size k) (is_last (edges_of_core k)) t → t ≡ parts_of k }
    ensures look { (k : Core) (t : List (List Part)) (r c : ℕ)
        → IsTiled (own_size k) (is_last (edges_of_core k)) t
        → look k r c ≡ look_of_origin (own_look k) r c (part_at t r c) }
    ensures origin { (k : Core) (t : List (List Part)) (r c : ℕ)
        → IsTiled (own_size k) (is_last (edges_of_core k)) t → OnScreen r c
        → OnScreen (r - (part_at t r c).dy) (c - (part_at t r c).dx) }
{}

/// A place that is covered from above shows one place further down what the place above shows, one
/// that is covered from the left one place further right what its left neighbour shows, and any
/// other its part of what stands there itself. So each row is made of its own cells and of the
/// looks of the row above.
pub fn looks_come_from_above_or_the_left()
    ensures above { (k : Core) (r c : ℕ) → OnScreen r c
        → IsTrue (covers_below (part_of (look_seen (looks_of k) (r - 1) c)))
        → look k r c ≡ record (look_seen (looks_of k) (r - 1) c) { dy = 1 } }
    ensures left { (k : Core) (r c : ℕ) → OnScreen r c
        → IsFalse (covers_below (part_of (look_seen (looks_of k) (r - 1) c)))
        → IsTrue (is_covered_from_left (part_of (look_seen (looks_of k) (r - 1) (c - 1)))
        (part_of (look_seen (looks_of k) r (c - 1))))
        → look k r c ≡ record (look_seen (looks_of k) r (c - 1)) { dy = 0; dx = 1 } }
    ensures itself { (k : Core) (r c : ℕ) → OnScreen r c
        → IsFalse (covers_below (part_of (look_seen (looks_of k) (r - 1) c)))
        → IsFalse (is_covered_from_left (part_of (look_seen (looks_of k) (r - 1) (c - 1)))
        (part_of (look_seen (looks_of k) r (c - 1))))
        → look k r c ≡ look_with_part (part_at (parts_of k) r c) (own_look k r c) }
    ensures row { (k : Core) (r : ℕ) → 1 ≤ r → r ≤ 24
        → looks_in (looks_of k) r
        ≡ row_from_above (looks_in (looks_of k) (r - 1)) (own_look k r) (own_size k r)
        (is_last (edges_of_core k) r) }
{}

/// A row keeps its looks where its own cells, their sizes, whether it is last and what covers it
/// from above stay: by itself, in two cores, and from one row of a core to one of another.
pub fn rows_stay_under_what_covers_them()
    ensures row { (above next : List Look) (own own_next : ℕ → Look) (wanted wanted_next : ℕ → Size)
        (last : Bool) → map covering above ≡ map covering next
        → ((c : ℕ) → 1 ≤ c → c ≤ 40 → own c ≡ own_next c)
        → ((c : ℕ) → 1 ≤ c → c ≤ 40 → wanted c ≡ wanted_next c)
        → row_from_above above own wanted last ≡ row_from_above next own_next wanted_next last }
    ensures rows { (k m : Core) (r q : ℕ) → 1 ≤ r → r ≤ 24 → 1 ≤ q → q ≤ 24
        → map covering (looks_in (looks_of k) (r - 1)) ≡ map covering (looks_in (looks_of m)
        (q - 1))
        → ((c : ℕ) → 1 ≤ c → c ≤ 40 → own_look k r c ≡ own_look m q c)
        → ((c : ℕ) → 1 ≤ c → c ≤ 40 → own_size k r c ≡ own_size m q c)
        → is_last (edges_of_core k) r ≡ is_last (edges_of_core m) q
        → looks_in (looks_of k) r ≡ looks_in (looks_of m) q }
    ensures covering { (g h : List (List Look)) (q r : ℕ) → IsTable g → IsTable h → 1 ≤ q → q ≤ 24
        → 1 ≤ r → r ≤ 24 → is_covered_otherwise g q h r ≡ false
        → map covering (looks_in g (q - 1)) ≡ map covering (looks_in h (r - 1)) }
{}

/// In a row in which every sign is to be shown in single size, nothing covers the row below; and
/// where nothing covers it from above, each place shows what stands there by itself.
pub fn rows_of_single_size_cover_nothing()
    ensures below { (k : Core) (r : ℕ) → 1 ≤ r → r ≤ 24
        → ((c : ℕ) → 1 ≤ c → c ≤ 40 → own_size k r c ≡ sizes.Normal)
        → (c : ℕ) → covers_below (part_of (look_seen (looks_of k) r c)) ≡ false }
    ensures first { (k : Core) (c : ℕ)
        → covers_below (part_of (look_seen (looks_of k) 0 c)) ≡ false }
    ensures itself { (k : Core) (r c : ℕ) → OnScreen r c
        → ((d : ℕ) → 1 ≤ d → d ≤ 40 → own_size k r d ≡ sizes.Normal)
        → ((d : ℕ) → covers_below (part_of (look_seen (looks_of k) (r - 1) d)) ≡ false)
        → look k r c ≡ own_look k r c }
{}
