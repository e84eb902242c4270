//! Laws of the rows that a command reaches: every other row has after it the looks of the row of
//! which it came.
ghost use Rattle.std.specs.Prelude.{◌≡◌, ℕ, ◌-◌, ◌≤◌, false, Some, IsSomeAnd, IsTrue, List};
ghost use Rattle.std.specs.List.{AllByRecursion, count_by, list_any, range_with_len};
ghost use Rattle.cept_codes.specs.declared.command.Command.{Command};
ghost use Rattle.cept_codes.specs.declared.stroke.Stroke.{Stroke};
ghost use Rattle.cept_codes.specs.Cell.{blank_cell};
ghost use Rattle.cept_codes.specs.Command.{IsValidCommand};
ghost use Rattle.cept_codes.specs.Place.{OnScreen};
ghost use Rattle.cept_codes.specs.Stroke.{IsRow, IsValidStroke};
ghost use Rattle.cept_codes.specs.Table.{value_at};
ghost use Rattle.cept_profile.specs.Look.{look, looks_of, parts_of};
ghost use Rattle.cept_profile.specs.Cells.{moves};
ghost use Rattle.cept_profile.specs.MovedRows.{row_before};
ghost use Rattle.cept_profile.specs.Names.{names_at};
ghost use Rattle.cept_profile.specs.Reach.{LeadsTo, has_other_attributes};
ghost use Rattle.cept_profile.specs.Reach.{is_reached};
ghost use Rattle.cept_profile.specs.Reach.{is_reached_from, is_redefined, is_written, reaches, rows_in_reach, writes};
ghost use Rattle.cept_profile.specs.RowsFromAbove.{is_covered_otherwise};
ghost use Rattle.cept_profile.specs.State.{Core, Page, State, core_of, page_after, state_after};
ghost use Rattle.cept_profile.specs.Strokes.{strokes_of};
ghost use Rattle.cept_profile.specs.Tiling.{covers_below, part_at};
ghost use Rattle.cept_profile.specs.Valid.{IsValidState};

/// A row that a command doesn't reach came of a row of the screen, and has after the command the
/// looks that that row had before it. At most all 24 rows are reached.
pub fn rows_that_are_not_reached_keep_their_looks()
    ensures looks { (s : State) (command : Command) (q r c : ℕ) → IsValidState s
        → IsValidCommand command → OnScreen r c
        → row_before (strokes_of s.control command) r ≡ Some q → reaches s command r ≡ false
        → look (core_of (state_after s command)) r c ≡ look (core_of s) q c }
    ensures came { (s : State) (command : Command) (r : ℕ) → IsValidState s
        → IsValidCommand command → 1 ≤ r → r ≤ 24 → reaches s command r ≡ false
        → IsSomeAnd (row_before (strokes_of s.control command) r) IsRow }
    ensures reach { (s : State) (command : Command) (r : ℕ)
        → reaches s command r ≡ is_reached (core_of s) (core_of (state_after s command))
        (strokes_of s.control command) r }
    ensures counted { (s : State) (command : Command)
        → rows_in_reach s command ≡ count_by (reaches s command) (range_with_len 1 24) }
    ensures at_most_24 { (s : State) (command : Command) → rows_in_reach s command ≤ 24 }
{}

/// The same of valid strokes that lead from one core to another; those of a valid command lead from
/// a valid state to the next.
pub fn rows_that_strokes_do_not_reach_keep_their_looks()
    ensures looks { (before after : Core) (strokes : List Stroke) (q r c : ℕ)
        → LeadsTo before after strokes → OnScreen r c → row_before strokes r ≡ Some q
        → is_reached before after strokes r ≡ false → look after r c ≡ look before q c }
    ensures came { (before after : Core) (strokes : List Stroke) (r : ℕ)
        → AllByRecursion IsValidStroke strokes → 1 ≤ r → r ≤ 24
        → is_reached before after strokes r ≡ false → IsSomeAnd (row_before strokes r) IsRow }
    ensures reach { (before after : Core) (strokes : List Stroke) (r : ℕ)
        → is_reached before after strokes r
        ≡ is_reached_from before after strokes (row_before strokes r) r }
    ensures leads { (s : State) (command : Command) → IsValidState s → IsValidCommand command
        → LeadsTo (core_of s) (core_of (state_after s command)) (strokes_of s.control command) }
{}

/// In a row in which no stroke writes stand the cells of the row of which it came, which is one of
/// the screen.
pub fn rows_come_with_their_cells()
    ensures cells { (p : Page) (strokes : List Stroke) (q r c : ℕ)
        → AllByRecursion IsValidStroke strokes → OnScreen r c → row_before strokes r ≡ Some q
        → is_written strokes r ≡ false
        → value_at blank_cell (page_after p strokes).cells r c ≡ value_at blank_cell p.cells q c }
    ensures row { (strokes : List Stroke) (r q : ℕ) → AllByRecursion IsValidStroke strokes
        → 1 ≤ r → r ≤ 24 → row_before strokes r ≡ Some q → IsRow q }
{}

/// A row in which no stroke writes, that has the attributes that it had and is covered from above as
/// it was, has the parts of the row of which it came. It names what that row named, where what
/// covers it from above does so; then the strokes define some of its names anew where they do so of
/// that row's.
pub fn rows_come_with_their_parts_and_names()
    ensures parts { (before after : Core) (strokes : List Stroke) (q r c : ℕ)
        → LeadsTo before after strokes → OnScreen r c → row_before strokes r ≡ Some q
        → is_written strokes r ≡ false → has_other_attributes before q after r ≡ false
        → is_covered_otherwise (looks_of before) q (looks_of after) r ≡ false
        → part_at (parts_of after) r c ≡ part_at (parts_of before) q c }
    ensures names { (before after : Core) (strokes : List Stroke) (q r c : ℕ)
        → LeadsTo before after strokes → OnScreen r c → row_before strokes r ≡ Some q
        → is_written strokes r ≡ false → has_other_attributes before q after r ≡ false
        → is_covered_otherwise (looks_of before) q (looks_of after) r ≡ false
        → (IsTrue (covers_below (part_at (parts_of after) (r - 1) c))
        → names_at after (r - 1) c ≡ names_at before (q - 1) c)
        → names_at after r c ≡ names_at before q c }
    ensures redefined { (before after : Core) (strokes : List Stroke) (q r : ℕ)
        → LeadsTo before after strokes → 1 ≤ r → r ≤ 24 → row_before strokes r ≡ Some q
        → is_written strokes r ≡ false → has_other_attributes before q after r ≡ false
        → is_covered_otherwise (looks_of before) q (looks_of after) r ≡ false
        → ((c : ℕ) → 1 ≤ c → c ≤ 40
        → IsTrue (covers_below (part_at (parts_of after) (r - 1) c))
        → names_at after (r - 1) c ≡ names_at before (q - 1) c)
        → is_redefined after strokes r ≡ is_redefined before strokes q }
{}

/// A row that no stroke moves stays where it is, and is written where a stroke writes in it.
pub fn rows_that_do_not_move()
    ensures row { (strokes : List Stroke) (r : ℕ)
        → list_any (λ stroke. moves stroke r) strokes ≡ false → row_before strokes r ≡ Some r }
    ensures written { (strokes : List Stroke) (r : ℕ)
        → list_any (λ stroke. moves stroke r) strokes ≡ false
        → is_written strokes r ≡ list_any (λ stroke. writes stroke r) strokes }
{}
