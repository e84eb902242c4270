//! Laws of the start: before any command nothing is written and each place has the blank look.
//! Clearing takes all cells and the attributes of all rows, and nothing else of the page.
ghost use Rattle.std.specs.Prelude.{◌≡◌, ℕ, []};
ghost use Rattle.cept_codes.specs.declared.command.Command.{Command};
ghost use Rattle.cept_codes.specs.Attribute.{IsScreenPen, unset_pen};
ghost use Rattle.cept_codes.specs.Look.{blank_look};
ghost use Rattle.cept_codes.specs.Place.{OnScreen};
ghost use Rattle.cept_codes.specs.Table.{table};
ghost use Rattle.cept_profile.specs.Control.{initial_control};
ghost use Rattle.cept_profile.specs.Look.{grid, look, look_of};
ghost use Rattle.cept_profile.specs.State.{State, blank_page, core_of, definitions_of, state};
ghost use Rattle.cept_profile.specs.State.{state_after};
ghost use Rattle.cept_profile.specs.Valid.{IsValidPage};

use cept_codes::{Command, What};

/// Before any command control is initial, each cell is blank and each place has the blank look, as
/// what is blank looks where no attribute is set.
pub fn the_first_grid()
    ensures state { state [] ≡ record { page = blank_page; control = initial_control } }
    ensures blank { look_of (definitions_of blank_page) unset_pen unset_pen What.Blank
        ≡ blank_look }
    ensures grid { grid [] ≡ table (λ r c. blank_look) }
{}

/// Clearing a valid page leaves the cells and the attributes of rows of the start; the attributes
/// of the screen, the colour entries, the DCLUT and the patterns stay. So each place has the look of a blank cell
/// under the attributes of the screen.
pub fn clearing_blanks_the_cells()
    ensures page { (s : State) → IsValidPage s.page
        → (state_after s Command.Clear).page ≡ record blank_page {
          screen_pen = s.page.screen_pen;
          paints = s.page.paints;
          dclut = s.page.dclut;
          patterns =
              s.page.patterns;
        } }
    ensures looks { (s : State) (r c : ℕ) → OnScreen r c → IsScreenPen s.page.screen_pen
        → look (core_of (state_after s Command.Clear)) r c
        ≡ look_of (definitions_of s.page) unset_pen s.page.screen_pen What.Blank }
{}
