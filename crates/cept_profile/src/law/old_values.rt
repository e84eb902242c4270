//! Laws of old values: noting them and changing what they are noted of leaves the state to which they
//! unwind.
ghost use Rattle.std.specs.Prelude.{◌≡◌, ℕ, Bool, true, List, [], ◌∷◌, is_some};
ghost use Rattle.cept_codes.specs.declared.cell.Cell.{Cell};
ghost use Rattle.cept_codes.specs.declared.command.Command.{Command};
ghost use Rattle.cept_codes.specs.declared.stroke.Stroke.{Stroke};
ghost use Rattle.cept_codes.specs.Place.{OnScreen};
ghost use Rattle.cept_codes.specs.Table.{IsTable};
ghost use Rattle.cept_profile.specs.NotedStrokes.{with_cells_of, with_command, with_dclut_of, with_paints_of};
ghost use Rattle.cept_profile.specs.NotedStrokes.{with_patterns_of, with_row_pens_of, with_stroke, with_strokes};
ghost use Rattle.cept_profile.specs.OldValues.{DifferWhereNoted, OldValues, no_old_values, old_cell, page_unwound};
ghost use Rattle.cept_profile.specs.OldValues.{unwound, with_cells, with_control, with_screen_pen};
ghost use Rattle.cept_profile.specs.State.{Page, State, page_after, state_after};
ghost use Rattle.cept_profile.specs.Valid.{IsValidState};

/// A valid state unwinds to itself where nothing is noted, and where its own control alone is.
pub fn nothing_noted_unwinds_nothing()
    ensures nothing { (s : State) → IsValidState s → unwound s no_old_values ≡ s }
    ensures begun { (s : State) → IsValidState s
        → unwound s (with_control s.control no_old_values) ≡ s }
{}

/// Noting what stands at any locations leaves what a page or a state unwinds to, and so does whatever
/// becomes of the locations that are noted. Noting again the cells that are noted changes nothing:
/// the first old value stands.
pub fn noting_leaves_what_is_unwound_to()
    ensures cells { (p : Page) (these : ℕ → ℕ → Bool) (old : OldValues)
        → page_unwound p (with_cells_of p these old) ≡ page_unwound p old }
    ensures row_pens { (p : Page) (these : ℕ → Bool) (old : OldValues)
        → page_unwound p (with_row_pens_of p these old) ≡ page_unwound p old }
    ensures screen_pen { (p : Page) (old : OldValues)
        → page_unwound p (with_screen_pen p.screen_pen old) ≡ page_unwound p old }
    ensures paints { (p : Page) (these : ℕ → Bool) (old : OldValues)
        → page_unwound p (with_paints_of p these old) ≡ page_unwound p old }
    ensures dclut { (p : Page) (these : ℕ → Bool) (old : OldValues)
        → page_unwound p (with_dclut_of p these old) ≡ page_unwound p old }
    ensures patterns { (p : Page) (these : ℕ → Bool) (old : OldValues)
        → page_unwound p (with_patterns_of p these old) ≡ page_unwound p old }
    ensures control { (s : State) (old : OldValues)
        → unwound s (with_control s.control old) ≡ unwound s old }
    ensures changed { (old : OldValues) (p q : Page) → DifferWhereNoted old p q
        → page_unwound p old ≡ page_unwound q old }
    ensures again { (old : OldValues) (these : ℕ → ℕ → Bool) (cell : ℕ → ℕ → Cell)
        → IsTable old.cells
        → ((r c : ℕ) → OnScreen r c → these r c ≡ true → is_some (old_cell old r c) ≡ true)
        → with_cells these cell old ≡ old }
{}

/// What a stroke changes is noted before it: then the page after it unwinds to what the page before it
/// unwound to. So do the page after several strokes and the state after a command.
pub fn noted_strokes_leave_what_is_unwound_to()
    ensures stroke { (p : Page) (stroke : Stroke) (old : OldValues)
        → page_unwound (page_after p (stroke ∷ [])) (with_stroke p stroke old)
        ≡ page_unwound p old }
    ensures strokes { (strokes : List Stroke) (p : Page) (old : OldValues)
        → page_unwound (page_after p strokes) (with_strokes p strokes old) ≡ page_unwound p old }
    ensures command { (s : State) (command : Command) (old : OldValues)
        → unwound (state_after s command) (with_command s command old) ≡ unwound s old }
{}
