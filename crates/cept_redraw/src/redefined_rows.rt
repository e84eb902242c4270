ghost use Rattle.std.specs.Prelude.{◌≡◌, ℕ};
ghost use Rattle.std.specs.List.{AllByRecursion};
ghost use Rattle.cept_codes.specs.Stroke.{IsValidStroke};
ghost use Rattle.cept_codes.specs.Table.{list_by_index};
ghost use Rattle.cept_profile.specs.Look.{looks_of};
ghost use Rattle.cept_profile.specs.Names.{names_entry};
ghost use Rattle.cept_profile.specs.Reach.{is_redefined, redefines};
ghost use Rattle.cept_profile.specs.State.{Core};
ghost use Rattle.cept_profile.specs.Valid.{IsValidPage};
ghost use Rattle.cept_redraw.specs.Kept.{core_on};
ghost use Rattle.cept_redraw.specs.Named.{AreNamed};
ghost use Rattle.cept_redraw.specs.inside.Named.{AreAllKnown};
ghost use Rattle.cept_redraw.specs.inside.Redefined.{IsNamedRow, is_ink_in};

use crate::kept_names::KeptNames;
use crate::kept_rows::KeptRows;
use cept_codes::{Row, Stroke};
use cept_colours::Colours;
use cept_page::Page;
use cept_rows::{RowLooks, RowNames};

/// For each row from the top, whether one of the strokes sets or clears something that it names,
/// where these are the looks of the page and all names are known.
pub(crate) fn rows_redefined(
    page: &Page,
    strokes: &[Stroke],
    kept: &KeptRows,
    names: &KeptNames,
) -> [bool; 24]
    requires valid { IsValidPage page.now }
    requires each { AllByRecursion IsValidStroke strokes.now }
    requires known { AreAllKnown names.now }
    ensures { (k : Core) → kept.now ≡ looks_of (core_on k page.now)
        → AreNamed names.now (core_on k page.now)
        → result ≡ list_by_index 1 24 (is_redefined (core_on k page.now) strokes.now) }
{
    let mut redefined = [false; 24];
    for i in 0..24u8 {
        let row = Row::numbered(i + 1);
        redefined[usize::from(i)] = is_redefined(
            strokes,
            names.row(row),
            kept.row(row),
            page.colours(),
        );
    }
    redefined
}

/// Whether one of the strokes sets or clears something that a row with these names and looks names.
fn is_redefined(strokes: &[Stroke], names: &RowNames, looks: &RowLooks, colours: &Colours) -> bool
    requires each { AllByRecursion IsValidStroke strokes.now }
    ensures { (k : Core) (r : ℕ) → IsNamedRow k r names.now looks.now colours.now.dclut
        → result ≡ is_redefined k strokes.now r }
{
    for stroke in strokes {
        if redefines(stroke, names, looks, colours) {
            return true;
        }
    }
    false
}

/// Whether a stroke does.
fn redefines(stroke: &Stroke, names: &RowNames, looks: &RowLooks, colours: &Colours) -> bool
    requires valid { IsValidStroke stroke.now }
    ensures { (k : Core) (r : ℕ) → IsNamedRow k r names.now looks.now colours.now.dclut
        → result ≡ redefines k r stroke.now }
{
    match stroke {
        Stroke::Colour(entry, _) => names_entry(*entry, names, looks, colours),
        Stroke::Dclut(number, _) => *number < 4 && looks.shows_planes(2),
        // Each row names some.
        Stroke::ColourDefaults => true,
        Stroke::Drcs(code, _) => names.has_code(*code),
        Stroke::DrcsClear => names.has_some_code(),
        // These define nothing.
        Stroke::Put(_, _)
        | Stroke::Erase(_, _)
        | Stroke::Wipe
        | Stroke::Shift(_, _, _)
        | Stroke::Carry(_, _, _)
        | Stroke::RowAttr(_, _)
        | Stroke::ScreenAttr(_)
        | Stroke::ScreenClear
        | Stroke::Format(_) => false,
    }
}

/// Whether a row names a colour entry: as a foreground, as a background, or as an ink of a pattern.
// Few rows show patterns: the DCLUT is asked only where one has two planes.
fn names_entry(entry: u8, names: &RowNames, looks: &RowLooks, colours: &Colours) -> bool
    ensures { (k : Core) (r : ℕ) → IsNamedRow k r names.now looks.now colours.now.dclut
        → result ≡ names_entry k r entry }
{
    if names.has_entry(entry) {
        return true;
    }
    let four = looks.shows_planes(4) & (16 <= entry) & (entry < 32);
    if looks.shows_planes(2) {
        return is_ink(entry, colours) | four;
    }
    four
}

/// Whether an entry of the DCLUT names this colour entry.
fn is_ink(entry: u8, colours: &Colours) -> bool
    ensures { result ≡ is_ink_in colours.now.dclut entry }
{
    for i in 0..4u8 {
        if colours.dclut(i) == entry {
            return true;
        }
    }
    false
}
