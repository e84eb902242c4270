//! Laws of cells: what a sign that is put and an erased end of a row change, that a protected cell
//! outlives all strokes but a wipe, and moves or goes by shifts alone, what a shift moves, and that
//! a wipe blanks every cell.
ghost use Rattle.std.specs.Prelude.{◌≡◌, ◌≢◌, ◌⊎◌, ◌≤◌, ◌<◌, ◌+◌, ◌-◌, ℕ, false, IsTrue, List, [], ◌∷◌, ◌++◌};
ghost use Rattle.std.specs.Prelude.{Some};
ghost use Rattle.std.specs.List.{Contains, list_any};
ghost use Rattle.cept_codes.specs.declared.cell.Cell.{Cell};
ghost use Rattle.cept_codes.specs.declared.stroke.Stroke.{Stroke};
ghost use Rattle.cept_codes.specs.Cell.{blank_cell};
ghost use Rattle.cept_codes.specs.Place.{Place, OnScreen};
ghost use Rattle.cept_codes.specs.Table.{value_at};
ghost use Rattle.cept_profile.specs.Cells.{cell_after, cells_after_all, moves};
ghost use Rattle.cept_profile.specs.MovedRows.{moved_rows};

use cept_codes::{Stroke, Up};

/// A cell that is put stands at its place where the cell there wasn't protected, and no other place
/// changes. The end of a row that is erased is blank where it wasn't protected, and no other place
/// changes. A protected cell changes only by `Wipe`, which blanks each cell, or moves or goes by a
/// stroke that moves its row: the rows that it moves go one up or down, and the last or the first is
/// blank. After a wipe that is last none is left, protected or not.
pub fn protection()
    ensures written { (p : Place) (cell : Cell) (was : ℕ → ℕ → Cell)
        → (was p.row p.column).protected ≡ false
        → cell_after (Stroke.Put p cell) was p.row p.column ≡ cell }
    ensures elsewhere { (p q : Place) (cell : Cell) (was : ℕ → ℕ → Cell) → p ≢ q
        → cell_after (Stroke.Put p cell) was q.row q.column ≡ was q.row q.column }
    ensures erased { (row from : ℕ) (was : ℕ → ℕ → Cell) (c : ℕ) → from ≤ c
        → (was row c).protected ≡ false
        → cell_after (Stroke.Erase row from) was row c ≡ blank_cell }
    ensures not_erased { (row from : ℕ) (was : ℕ → ℕ → Cell) (r c : ℕ) → (r ≢ row) ⊎ (c < from)
        → cell_after (Stroke.Erase row from) was r c ≡ was r c }
    ensures stays { (stroke : Stroke) (was : ℕ → ℕ → Cell) (r c : ℕ) → IsTrue (was r c).protected
        → moves stroke r ≡ false → (stroke ≡ Stroke.Wipe) ⊎ (cell_after stroke was r c ≡ was r c) }
    ensures stays_on { (cells : List (List Cell)) (strokes : List Stroke) (r c : ℕ) → OnScreen r c
        → IsTrue (value_at blank_cell cells r c).protected
        → list_any (λ stroke. moves stroke r) strokes ≡ false
        → Contains strokes Stroke.Wipe
        ⊎ (value_at blank_cell (cells_after_all cells strokes) r c
        ≡ value_at blank_cell cells r c) }
    ensures up { (stroke : Stroke) (a b : ℕ) (was : ℕ → ℕ → Cell) (r c : ℕ)
        → moved_rows stroke ≡ Some (record { first = a; last = b; way = Up.Up }) → a ≤ r → r < b
        → cell_after stroke was r c ≡ was (r + 1) c }
    ensures up_last { (stroke : Stroke) (a b : ℕ) (was : ℕ → ℕ → Cell) (c : ℕ)
        → moved_rows stroke ≡ Some (record { first = a; last = b; way = Up.Up }) → a ≤ b
        → cell_after stroke was b c ≡ blank_cell }
    ensures down { (stroke : Stroke) (a b : ℕ) (was : ℕ → ℕ → Cell) (r c : ℕ)
        → moved_rows stroke ≡ Some (record { first = a; last = b; way = Up.Down }) → a < r → r ≤ b
        → cell_after stroke was r c ≡ was (r - 1) c }
    ensures down_first { (stroke : Stroke) (a b : ℕ) (was : ℕ → ℕ → Cell) (c : ℕ)
        → moved_rows stroke ≡ Some (record { first = a; last = b; way = Up.Down }) → a ≤ b
        → cell_after stroke was a c ≡ blank_cell }
    ensures wiped { (was : ℕ → ℕ → Cell) (r c : ℕ) → OnScreen r c
        → cell_after Stroke.Wipe was r c ≡ blank_cell }
    ensures wiped_last { (cells : List (List Cell)) (strokes : List Stroke) (r c : ℕ) → OnScreen r c
        → value_at blank_cell (cells_after_all cells (strokes ++ Stroke.Wipe ∷ [])) r c
        ≡ blank_cell }
{}
