//! Law of motions: with wrap, where no area scrolls, the places of the format follow one another in
//! reading order, and the first follows the last. At the edge of an area that scrolls the row stays.
ghost use Rattle.std.specs.Prelude.{◌≡◌, ℕ, ◌+◌, ◌*◌, ◌%◌, ◌≤◌, true, None};
ghost use Rattle.cept_codes.specs.Place.{number};
ghost use Rattle.cept_profile.specs.Control.{ControlState, control_after};
ghost use Rattle.cept_profile.specs.Motions.{place_number, scrolling_area};
ghost use Rattle.cept_profile.specs.Valid.{IsValidControl};

use cept_codes::Command;

/// With wrap, where no area scrolls, a motion goes by one place or by one row of forty in the circle
/// of the format's places, forward and down to higher numbers, back and up to lower ones. Home is the first place,
/// a return goes to the first of the row, and a position within the format is the place that it
/// names.
pub fn motions_go_round_the_places()
    ensures forward { (s : ControlState) → IsValidControl s → scrolling_area s ≡ None
        → s.wrap ≡ true
        → (place_number s + 1) % (40 * s.rows) ≡ place_number (control_after s Command.Forward) }
    ensures back { (s : ControlState) → IsValidControl s → scrolling_area s ≡ None
        → s.wrap ≡ true
        → (place_number (control_after s Command.Back) + 1) % (40 * s.rows) ≡ place_number s }
    ensures down { (s : ControlState) → IsValidControl s → scrolling_area s ≡ None
        → s.wrap ≡ true
        → (place_number s + 40) % (40 * s.rows) ≡ place_number (control_after s Command.Down) }
    ensures up { (s : ControlState) → IsValidControl s → scrolling_area s ≡ None
        → s.wrap ≡ true
        → (place_number (control_after s Command.Up) + 40) % (40 * s.rows) ≡ place_number s }
    ensures home { (s : ControlState) → place_number (control_after s Command.Home) ≡ 0 }
    ensures returned { (s : ControlState)
        → place_number (control_after s Command.Return) ≡ number s.working.row 1 }
    ensures named { (s : ControlState) (r c : ℕ) → r ≤ s.rows
        → place_number (control_after s (Command.Position r c)) ≡ number r c }
{}
