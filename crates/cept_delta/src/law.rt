//! Laws of old values: functions that do nothing, and whose clauses say what holds of values that are
//! exchanged, and where none is noted.
ghost use Rattle.std.specs.Prelude.{◌≡◌, ◌≤◌, ℕ, false, List, Option, None, is_some};
ghost use Rattle.std.specs.List.{list_any};
ghost use Rattle.cept_codes.specs.Cell.{blank_cell};
ghost use Rattle.cept_codes.specs.Place.{OnScreen};
ghost use Rattle.cept_codes.specs.Table.{entry, value_at};
ghost use Rattle.cept_delta.specs.Delta.{HasPlaces};
ghost use Rattle.cept_delta.specs.Exchanged.{HasSameLocations, exchanged, page_exchanged};
ghost use Rattle.cept_delta.specs.Noted.{IsRowUnnoted, notes_row};
ghost use Rattle.cept_profile.specs.OldValues.{OldValues, page_unwound, unwound};
ghost use Rattle.cept_profile.specs.PageParts.{row_pen_in};
ghost use Rattle.cept_profile.specs.State.{Page, State};
ghost use Rattle.cept_profile.specs.Valid.{IsValidState};

/// Old values that are exchanged with those of a state lead back to it from the state that they led to, and
/// exchanged again they are as they were. They are noted of the same locations, of a page too.
pub fn exchanged_values_lead_back()
    ensures back { (s : State) (old : OldValues) → IsValidState s
        → unwound (unwound s old) (exchanged s old) ≡ s }
    ensures again { (s : State) (old : OldValues) → HasPlaces old
        → exchanged (unwound s old) (exchanged s old) ≡ old }
    ensures locations { (s : State) (old : OldValues) → HasSameLocations old (exchanged s old) }
    ensures of_page { (p : Page) (old : OldValues) → HasSameLocations old (page_exchanged p old) }
{}

/// Where none of a list is noted each entry is none, and where a row isn't noted no old value of it is:
/// then it stays where old values are put back.
pub fn where_none_is_noted<X>()
    ensures entries { (from : ℕ) (olds : List (Option X)) (k : ℕ) → from ≤ k
        → list_any is_some olds ≡ false → entry None from olds k ≡ None }
    ensures rows { (old : OldValues) (r : ℕ) → 1 ≤ r → notes_row old r ≡ false → IsRowUnnoted old r }
    ensures cells { (p : Page) (old : OldValues) (r c : ℕ) → OnScreen r c → IsRowUnnoted old r
        → value_at blank_cell (page_unwound p old).cells r c ≡ value_at blank_cell p.cells r c }
    ensures attributes { (p : Page) (old : OldValues) (r : ℕ) → 1 ≤ r → r ≤ 24 → IsRowUnnoted old r
        → row_pen_in (page_unwound p old).row_pens r ≡ row_pen_in p.row_pens r }
{}
