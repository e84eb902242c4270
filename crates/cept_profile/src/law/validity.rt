//! Laws of valid states: the initial state is valid, and valid commands keep it valid, with valid
//! strokes and looks.
ghost use Rattle.std.specs.Prelude.{ℕ, ◌≤◌, Bool, List, [], length};
ghost use Rattle.std.specs.Prelude.{◌≡◌};
ghost use Rattle.std.specs.List.{AllByRecursion};
ghost use Rattle.std.specs.List.{count_by};
ghost use Rattle.cept_codes.specs.declared.attribute.Pen.{Pen};
ghost use Rattle.cept_codes.specs.declared.attribute.Size.{Size};
ghost use Rattle.cept_codes.specs.declared.cell.What.{What};
ghost use Rattle.cept_codes.specs.declared.command.Command.{Command};
ghost use Rattle.cept_codes.specs.Cell.{IsValidWhat};
ghost use Rattle.cept_codes.specs.Command.{IsValidCommand};
ghost use Rattle.cept_codes.specs.declared.look.Look.{Look};
ghost use Rattle.cept_codes.specs.Look.{IsValidLook, blank_look};
ghost use Rattle.cept_codes.specs.Stroke.{IsValidStroke};
ghost use Rattle.cept_profile.specs.Cells.{moves_rows};
ghost use Rattle.cept_profile.specs.Control.{ControlState, control_after};
ghost use Rattle.cept_profile.specs.Look.{grid, look_in_row, look_of, looks_of};
ghost use Rattle.cept_profile.specs.RowsFromAbove.{row_from_above};
ghost use Rattle.cept_profile.specs.Definitions.{Definitions};
ghost use Rattle.cept_profile.specs.State.{Core, Page, State, core_of, definitions_of, state};
ghost use Rattle.cept_profile.specs.State.{state_after};
ghost use Rattle.cept_profile.specs.Strokes.{strokes_of};
ghost use Rattle.cept_profile.specs.Valid.{AllValid, IsValidControl, IsValidCore, IsValidGrid};
ghost use Rattle.cept_profile.specs.Tiling.{column_entry};
ghost use Rattle.cept_profile.specs.Valid.{AreValidDefinitions, IsValidPage, IsValidState};

/// The state is valid at the start and after any list of valid commands, since each valid command
/// keeps a valid state valid. The core of a valid state is valid, and every valid core is the core of
/// a valid state.
pub fn validity_is_kept()
    ensures start { IsValidState (state []) }
    ensures control { (s : ControlState) (command : Command) → IsValidControl s
        → IsValidCommand command
        → IsValidControl (control_after s command) }
    ensures kept { (s : State) (command : Command) → IsValidState s → IsValidCommand command
        → IsValidState (state_after s command) }
    ensures always { (history : List Command) → AllValid history → IsValidState (state history) }
    ensures core { (s : State) → IsValidState s → IsValidCore (core_of s) }
    ensures of_state { (k : Core) → IsValidCore k → (s : State) × IsValidState s × (core_of s ≡ k) }
{}

/// In a valid state of control a valid command makes valid strokes, and at most 128 of them, of
/// which at most four move rows.
pub fn strokes_are_valid()
    ensures valid { (s : ControlState) (command : Command) → IsValidControl s
        → IsValidCommand command
        → AllByRecursion IsValidStroke (strokes_of s command) }
    ensures few { (s : ControlState) (command : Command) → IsValidCommand command
        → length (strokes_of s command) ≤ 128 }
    ensures moves { (s : ControlState) (command : Command) → IsValidControl s
        → IsValidCommand command → count_by moves_rows (strokes_of s command) ≤ 4 }
{}

/// What stands in a valid cell has a valid look, by itself and in a row of valid cells, where what
/// signs are drawn with is valid, as on a valid page, and a row beneath valid looks has valid ones. So
/// the looks of a core with a valid page are valid, and so is the grid after any list of valid commands.
pub fn looks_are_valid()
    ensures of_cell { (defined : Definitions) (row screen : Pen) (what : What)
        → AreValidDefinitions defined → IsValidWhat what
        → IsValidLook (look_of defined row screen what) }
    ensures in_row { (defined : Definitions) (row : ℕ → What) (pen screen : Pen) (c : ℕ) → 1 ≤ c
        → AreValidDefinitions defined → ((d : ℕ) → 1 ≤ d → d ≤ c → IsValidWhat (row d))
        → IsValidLook (look_in_row defined row pen screen c) }
    ensures of_page { (p : Page) → IsValidPage p → AreValidDefinitions (definitions_of p) }
    ensures from_above { (above : List Look) (own : ℕ → Look) (wanted : ℕ → Size) (last : Bool)
        → ((c : ℕ) → 1 ≤ c → c ≤ 40 → IsValidLook (column_entry blank_look above c))
        → ((c : ℕ) → 1 ≤ c → c ≤ 40 → IsValidLook (own c))
        → (c : ℕ) → 1 ≤ c → c ≤ 40
        → IsValidLook (column_entry blank_look (row_from_above above own wanted last) c) }
    ensures of_core { (k : Core) → IsValidPage k.page → IsValidGrid (looks_of k) }
    ensures always { (history : List Command) → AllValid history → IsValidGrid (grid history) }
{}
