//! Laws of the settings of control: they are what the last command says that sets them, closed
//! services set none, and the strokes tell the same rows.
ghost use Rattle.std.specs.Prelude.{◌≡◌, ℕ, false, List, [], ◌∷◌, ◌++◌, reverse};
ghost use Rattle.std.specs.List.{AllByRecursion};
ghost use Rattle.cept_codes.specs.declared.command.Command.{Command};
ghost use Rattle.cept_profile.specs.Control.{control};
ghost use Rattle.cept_profile.specs.ControlSettings.{ends_service, is_running, outer_history};
ghost use Rattle.cept_profile.specs.ControlSettings.{settings, settings_of};
ghost use Rattle.cept_profile.specs.LastSaid.{format_back};
ghost use Rattle.cept_profile.specs.Strokes.{strokes_in};
ghost use Rattle.cept_profile.specs.Valid.{AllValid};

use cept_codes::Command;

/// After any valid commands each setting of control is what the last command says that sets it,
/// else its initial value.
pub fn settings_look_back()
    ensures { (history : List Command) → AllValid history
        → settings_of (control history) ≡ settings history }
{}

/// The rows of control are those of the last stroke that sets the format, 24 before the first.
pub fn rows_are_those_of_the_last_format()
    ensures { (history : List Command) → AllValid history
        → format_back (reverse (strokes_in history)) ≡ (control history).rows }
{}

/// A service that is closed is left out, from its break to its end, and every command that closes
/// none stays.
pub fn closed_services_are_left_out()
    ensures closed { (before service : List Command) (row : ℕ) → is_running (reverse before) ≡ false
        → AllByRecursion (λ command. ends_service command ≡ false) service
        → outer_history (before ++ Command.ServiceBreak row ∷ (service ++ Command.ServiceEnd ∷ []))
        ≡ outer_history before }
    ensures others { (history : List Command) (command : Command)
        → (command ≡ Command.ServiceEnd → is_running (reverse history) ≡ false)
        → outer_history (history ++ command ∷ []) ≡ outer_history history ++ command ∷ [] }
{}
