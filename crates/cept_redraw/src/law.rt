//! Laws of kept looks and names: functions that do nothing, and whose clauses say on what these depend, and what it
//! is for them to stay.
ghost use Rattle.std.specs.Prelude.{◌≡◌, ℕ, Bool, false, List, []};
ghost use Rattle.cept_codes.specs.declared.look.Look.{Look};
ghost use Rattle.cept_codes.specs.declared.stroke.Stroke.{Stroke};
ghost use Rattle.cept_codes.specs.Look.{blank_look};
ghost use Rattle.cept_codes.specs.Place.{OnScreen};
ghost use Rattle.cept_codes.specs.Table.{IsTable, value_at};
ghost use Rattle.cept_profile.specs.Changes.{differences};
ghost use Rattle.cept_profile.specs.Edges.{Edges, edges_of_core};
ghost use Rattle.cept_profile.specs.Look.{looks_of};
ghost use Rattle.cept_profile.specs.RowsFromAbove.{look_seen};
ghost use Rattle.cept_profile.specs.State.{Core, Page};
ghost use Rattle.cept_redraw.specs.Kept.{AreLooksOn, core_on};
ghost use Rattle.cept_redraw.specs.Marks.{is_marked, no_marks};
ghost use Rattle.cept_redraw.specs.Named.{AreNamed, NamesOfRows};
ghost use Rattle.cept_redraw.specs.Renewed.{rows_renewed};

/// The looks of one core are those of every core with its page and its edges, and names that are known of one
/// are known of every core with the same edges, cells and attributes.
pub fn what_is_kept_stands_on_page_and_edges()
    ensures looks { (looks : List (List Look)) (p : Page) (edges : Edges) (k : Core) → edges_of_core k ≡ edges
        → looks ≡ looks_of (core_on k p) → AreLooksOn looks p edges }
    ensures names { (names : NamesOfRows) (before after : Core) → after.page.cells ≡ before.page.cells
        → after.page.row_pens ≡ before.page.row_pens → after.page.screen_pen ≡ before.page.screen_pen
        → edges_of_core after ≡ edges_of_core before → AreNamed names before → AreNamed names after }
{}

/// Looks that stay have no differences, which are no marks, and no row is renewed where no stroke was made.
pub fn looks_that_stay_are_not_marked()
    ensures marks { (g h : List (List Look)) (marks : List Bool) → marks ≡ no_marks → g ≡ h
        → marks ≡ differences g h }
    ensures none { (n : ℕ) → is_marked no_marks n ≡ false }
    ensures rows { (xs : List Stroke) (was now : List (List Look)) → xs ≡ [] → was ≡ now
        → rows_renewed xs was now ≡ 0 }
{}

/// A look that is seen from below or from beside is that of its place.
pub fn looks_are_seen_at_their_places()
    ensures { (g : List (List Look)) (r c : ℕ) → IsTable g → OnScreen r c
        → look_seen g r c ≡ value_at blank_look g r c }
{}
