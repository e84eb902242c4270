//! Laws of pages: functions that do nothing, and whose clauses say what strokes draw and what is noted of
//! them.
ghost use Rattle.std.specs.Prelude.{◌≡◌, List, [], ◌∷◌, Option, length, option_map};
ghost use Rattle.cept_codes.specs.declared.cell.Cell.{Cell};
ghost use Rattle.cept_codes.specs.declared.stroke.Stroke.{Stroke};
ghost use Rattle.cept_codes.specs.Place.{Place};
ghost use Rattle.cept_profile.specs.Cells.{cells_after};
ghost use Rattle.cept_profile.specs.NotedStrokes.{with_stroke, with_strokes};
ghost use Rattle.cept_profile.specs.OldValues.{OldValues};
ghost use Rattle.cept_profile.specs.State.{Page, page_after};
ghost use Rattle.cept_profile.specs.Valid.{IsValidPage};
ghost use Rattle.cept_page.specs.Drawn.{IsDrawn};

use cept_codes::Stroke;

/// No stroke changes nothing, a page that a stroke leaves part by part is the page after it, and a cell that is
/// put leaves all but the cells.
pub fn pages_are_drawn_part_by_part()
    ensures none { (p : Page) (xs : List Stroke) → length xs ≡ 0 → page_after p xs ≡ p }
    ensures drawn { (p q : Page) (x : Stroke) → IsDrawn p x q → q ≡ page_after p (x ∷ []) }
    ensures put { (p : Page) → IsValidPage p → (place : Place) (cell : Cell)
        → page_after p (Stroke.Put place cell ∷ [])
        ≡ record p { cells = cells_after p.cells (Stroke.Put place cell) } }
{}

/// Of no stroke nothing is noted, and of one what it changes.
pub fn strokes_are_noted_in_turn()
    ensures none { (p : Page) (xs : List Stroke) (noted : Option OldValues) → length xs ≡ 0
        → noted ≡ option_map (with_strokes p xs) noted }
    ensures one { (p : Page) (xs : List Stroke) (x : Stroke) (before after : Option OldValues)
        → xs ≡ x ∷ [] → after ≡ option_map (with_stroke p x) before
        → after ≡ option_map (with_strokes p xs) before }
{}
