//! Laws of orders of rows: functions that do nothing, and whose clauses say what holds of what is
//! kept in the slots.
ghost use Rattle.std.specs.Prelude.{◌≡◌, ℕ, ◌-◌, ◌<◌, ◌≤◌, ◌==◌, if◌then◌else◌, List, length};
ghost use Rattle.std.specs.Prelude.{slice_index_or, slice_set};
ghost use Rattle.cept_codes.specs.declared.command.Up.{Up};
ghost use Rattle.cept_codes.specs.Command.{IsArea};
ghost use Rattle.cept_codes.specs.Table.{IsTable};
ghost use Rattle.cept_profile.specs.Cells.{shifted};
ghost use Rattle.cept_scroll.specs.Order.{
  AreInSlots,
  HoldsRow,
  IsRowOrder,
  by_row,
  first_order,
  freed_slot,
  order_after,
  rows_in_order,
  rows_turned,
  slot_of,
  with_slot,
};

use cept_codes::Up;

/// A turn and one freed slot are a shift: where the rows of an area are turned and the freed slot
/// is made blank, what the slots keep by row is what a shift makes of it.
pub fn turned_rows_are_shifted_rows<X>()
    ensures { (order : List ℕ) (kept : ℕ → X) (blank : X) (way : Up) (first last r : ℕ)
        → IsRowOrder order → IsArea first last → 1 ≤ r → r ≤ 24
        → by_row (order_after way first last order) (with_slot (freed_slot way first last order) blank kept) r
        ≡ shifted way first last blank (by_row order kept) r }
{}

/// Each slot holds one row: at first that of its number, always some row, and writing the slot of a
/// row changes what is kept of that row alone.
pub fn slots_hold_one_row<X>()
    ensures first { (kept : ℕ → X) (r : ℕ) → 1 ≤ r → r ≤ 24 → by_row first_order kept r ≡ kept r }
    ensures held { (order : List ℕ) (slot : ℕ) → IsRowOrder order → 1 ≤ slot → slot ≤ 24
        → HoldsRow order slot }
    ensures written { (order : List ℕ) (kept : ℕ → X) (x : X) (q r : ℕ) → IsRowOrder order
        → 1 ≤ q → q ≤ 24 → 1 ≤ r → r ≤ 24
        → by_row order (with_slot (slot_of order q) x kept) r
        ≡ (if q == r then x else by_row order kept r) }
{}

/// Rows kept under slots are a table by row: at first as they lie, each row read and written in its
/// slot, and turned with the order alone.
pub fn rows_stand_in_slots<X>()
    ensures first { (kept : List (List X)) → IsTable kept → rows_in_order first_order kept ≡ kept }
    ensures table { (order : List ℕ) (kept rows : List (List X)) → AreInSlots order kept
        → rows_in_order order kept ≡ rows → IsTable rows }
    ensures read { (order : List ℕ) (kept rows : List (List X)) → AreInSlots order kept
        → rows_in_order order kept ≡ rows → (r i : ℕ) (d e : List X) → 1 ≤ r → r ≤ 24
        → i ≡ slot_of order r - 1 → slice_index_or kept i d ≡ slice_index_or rows (r - 1) e }
    ensures written { (order : List ℕ) (kept rows : List (List X)) → AreInSlots order kept
        → rows_in_order order kept ≡ rows → (r i : ℕ) (row : List X) → 1 ≤ r → r ≤ 24
        → i ≡ slot_of order r - 1
        → rows_in_order order (slice_set kept i row) ≡ slice_set rows (r - 1) row }
    ensures turned { (order : List ℕ) (kept rows : List (List X)) → rows_in_order order kept ≡ rows
        → (way : Up) (first last : ℕ) → IsArea first last
        → rows_in_order (order_after way first last order) kept
        ≡ rows_turned way first last rows }
{}

/// They stay 24 rows of 40, each in its slot, where a row is replaced and where the order is turned.
pub fn rows_stay_in_slots<X>()
    ensures written { (order : List ℕ) (kept : List (List X)) → AreInSlots order kept → (i : ℕ)
        (row : List X) → i < 24 → length row ≡ 40 → AreInSlots order (slice_set kept i row) }
    ensures turned { (order : List ℕ) (kept : List (List X)) → AreInSlots order kept → (way : Up)
        (first last : ℕ) → IsArea first last → AreInSlots (order_after way first last order) kept }
{}
