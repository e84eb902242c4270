//! Laws of the state: one more command needs only the state before it, and looking back shows what
//! drawing makes.
ghost use Rattle.std.specs.Prelude.{◌≡◌, List, [], ◌∷◌, ◌++◌, reverse};
ghost use Rattle.cept_codes.specs.declared.command.Command.{Command};
ghost use Rattle.cept_codes.specs.declared.stroke.Stroke.{Stroke};
ghost use Rattle.std.specs.List.{AllByRecursion};
ghost use Rattle.cept_codes.specs.Command.{IsValidCommand};
ghost use Rattle.cept_codes.specs.Stroke.{IsValidStroke};
ghost use Rattle.cept_profile.specs.Control.{control, control_after};
ghost use Rattle.cept_profile.specs.State.{state_after, blank_page, page_after, page_back, state};
ghost use Rattle.cept_profile.specs.State.{state};
ghost use Rattle.cept_profile.specs.Strokes.{strokes_in, strokes_of};
ghost use Rattle.cept_profile.specs.Valid.{AllValid};

/// The state after one more command is made of the state before it and of that command: no other
/// part of the history counts.
pub fn one_more_command()
    ensures { (history : List Command) (command : Command) → AllValid history
        → IsValidCommand command
        → state (history ++ command ∷ []) ≡ state_after (state history) command }
{}

/// The parts of the state: control takes one step, the strokes of the command are added, and they
/// are drawn on the page.
pub fn one_more_command_by_parts()
    ensures control { (history : List Command) (command : Command)
        → control (history ++ command ∷ []) ≡ control_after (control history) command }
    ensures strokes { (history : List Command) (command : Command)
        → strokes_in (history ++ command ∷ [])
        ≡ strokes_in history ++ strokes_of (control history) command }
    ensures page { (history : List Command) (command : Command) → AllValid history
        → IsValidCommand command
        → (state (history ++ command ∷ [])).page
        ≡ page_after (state history).page (strokes_of (control history) command) }
{}

/// The page whose cells are asked of the strokes from the last backwards is the blank page with all
/// strokes drawn in order: those of a history, and whatever other valid ones. A shift that isn't
/// valid would move rows that there aren't.
pub fn looking_back_is_drawing()
    ensures history { (history : List Command) → AllValid history
        → (state history).page ≡ page_after blank_page (strokes_in history) }
    ensures strokes { (strokes : List Stroke) → AllByRecursion IsValidStroke strokes
        → page_back (reverse strokes) ≡ page_after blank_page strokes }
{}
