ghost use Rattle.std.specs.Prelude.{◌≡◌, ℕ, ◌+◌, ◌-◌, ◌<◌, ◌≤◌, false, true, slice_index_or};
ghost use Rattle.std.specs.Prelude.{Bool, []};
ghost use Rattle.cept_codes.specs.declared.attribute.Pen.{Pen};
ghost use Rattle.cept_codes.specs.declared.cell.What.{What};
ghost use Rattle.cept_codes.specs.declared.look.Look.{Look};
ghost use Rattle.cept_profile.specs.Definitions.{Definitions};
ghost use Rattle.cept_codes.specs.declared.attribute.Size.TheVariants.{Normal};
ghost use Rattle.cept_codes.specs.Attribute.{IsValidPen, unset_pen};
ghost use Rattle.cept_codes.specs.Look.{blank_look};
ghost use Rattle.cept_profile.specs.Edges.{edges_of_core, is_last};
ghost use Rattle.cept_profile.specs.Look.{look_in_row, looks_of, part_of, sets_double_size};
ghost use Rattle.cept_profile.specs.Look.{size_in_row};
ghost use Rattle.cept_profile.specs.PageParts.{row_pen_in};
ghost use Rattle.cept_profile.specs.RowsFromAbove.{look_from, looks_in, row_from_above};
ghost use Rattle.cept_profile.specs.Serial.{row_in};
ghost use Rattle.cept_profile.specs.State.{Core, definitions_of};
ghost use Rattle.cept_profile.specs.Tiling.{column_entry, covers_below, covers_right};
ghost use Rattle.cept_rows.specs.inside.Brush.{attributes_by};
ghost use Rattle.cept_rows.specs.DrawnWith.{drawn_with};
ghost use Rattle.cept_rows.specs.Flagged.{look_at};
ghost use Rattle.cept_rows.specs.inside.Flagged.{IsMadeTo};
ghost use Rattle.cept_rows.specs.inside.Places.{IsMadeBeside, IsMadeFrom};
ghost use Rattle.cept_rows.specs.RowsByCell.{FollowsToTheRight, IsCoveredAlike};
ghost use Rattle.cept_rows.specs.Source.{AreValidCells, own_look, place_made, row_made};

use crate::cell_look::{Brush, is_plain, small_among};
use crate::places::{is_covered_from_left, put_place};
use crate::row_looks::RowLooks;
use crate::source::RowSource;
use crate::walk::Walk;
use cept_codes::{Column, Full, Pen, RowCells, Size};
use cept_colours::Colours;
use cept_drcs::Patterns;
use cept_outside::Steps;
use std::sync::ledger::Ledger;

/// The looks of a row from its own cells and attributes and from the looks of the row above. One
/// tick.
pub fn resolve_row<L: Ledger>(
    cells: &RowCells,
    row: &Pen,
    screen: &Pen,
    above: &RowLooks,
    last: bool,
    colours: &Colours,
    patterns: &Patterns,
    steps: &mut Steps<L>,
) -> RowLooks
    requires cells { AreValidCells cells.now.cells }
    requires row { IsValidPen row.now }
    requires screen { IsValidPen screen.now }
    ensures looks { result
        ≡ row_from_above above.now
        (look_in_row (drawn_with colours.now patterns.now) (row_in cells.now.cells) row.now
        screen.now)
        (size_in_row (row_in cells.now.cells) row.now screen.now) last }
    ensures beneath { (k : Core) (r : ℕ) → 1 ≤ r → r ≤ 24
        → above.now ≡ looks_in (looks_of k) (r - 1)
        → cells.now.cells ≡ slice_index_or k.page.cells (r - 1) []
        → row.now ≡ row_pen_in k.page.row_pens r → screen.now ≡ k.page.screen_pen
        → drawn_with colours.now patterns.now ≡ definitions_of k.page
        → last ≡ is_last (edges_of_core k) r → result ≡ looks_in (looks_of k) r }
    ensures tick { steps.new ≡ steps.old + 1 }
{
    let source = RowSource::new(&cells.cells, row, screen, colours, patterns).ending(last);
    let mut looks = RowLooks::flat();
    resolve_cells(&source, above, &mut looks, steps);
    looks
}

/// The same of forty cells where they stand. The looks take the place of those that a row held.
pub fn resolve_cells<L: Ledger>(
    source: &RowSource,
    above: &RowLooks,
    looks: &mut RowLooks,
    steps: &mut Steps<L>,
)
    ensures looks { looks.new ≡ row_made source.now above.now }
    ensures tick { steps.new ≡ steps.old + 1 }
{
    steps.tick();
    looks.clear();
    let full = source.attributes(&Pen::UNSET);
    let from = each_first(source, &full, above, looks);
    if from == 41 {
        return;
    }
    let _end = each_between(source, Column::numbered(from), 41, above, looks);
}

/// The same from a column on, where the looks to the left of it are already so: cells to the right
/// count for nothing. To the right of another column a look is already so if the place to its left is,
/// or shows the left side of a wide sign neither before nor after. Answers a column to whose right all
/// stay as they are.
pub fn resolve_cells_between<L: Ledger>(
    source: &RowSource,
    from: Column,
    until: u8,
    above: &RowLooks,
    looks: &mut RowLooks,
    steps: &mut Steps<L>,
) -> u8
    requires left { (c : ℕ) → 1 ≤ c → c < from
        → column_entry blank_look looks.old c ≡ place_made source.now above.now c }
    requires right { FollowsToTheRight until (column_entry blank_look looks.old)
        (place_made source.now above.now) }
    ensures looks { looks.new ≡ row_made source.now above.now }
    ensures order { from ≤ result + 1 }
    ensures to_right { result ≤ 40 }
    ensures stays { (c : ℕ) → result < c → c ≤ 40
        → column_entry blank_look looks.new c ≡ column_entry blank_look looks.old c }
    ensures tick { steps.new ≡ steps.old + 1 }
{
    steps.tick();
    each_between(source, from, until, above, looks)
}

/// The looks of a row depend on what stands to the left: rows that agree up to a column show the same
/// there, beneath looks that agree up to the next one.
pub fn rows_show_what_stands_to_the_left()
    ensures { (defined : Definitions) (above beside : ℕ → Look) (f g : ℕ → What) (pen screen : Pen)
        (last : Bool) (c : ℕ) → ((d : ℕ) → d ≤ c + 1 → above d ≡ beside d)
        → ((d : ℕ) → 1 ≤ d → d ≤ c → f d ≡ g d)
        → look_from above (look_in_row defined f pen screen) (size_in_row f pen screen) last c
        ≡ look_from beside (look_in_row defined g pen screen) (size_in_row g pen screen) last c }
{}

/// The look of a place depends on what stands there, and on the looks beside it: where these are the same
/// above and to its left and right, and the place to its left is the same or covers it in neither row, it
/// is the same.
pub fn places_show_what_is_beside_them()
    ensures { (above over own other : ℕ → Look) (wanted asked : ℕ → Size) (last : Bool) (c : ℕ) → 1 ≤ c
        → ((d : ℕ) → c ≤ d + 1 → d ≤ c + 1 → above d ≡ over d) → own c ≡ other c
        → wanted c ≡ asked c → IsCoveredAlike (look_from above own wanted last (c - 1))
        (look_from over other asked last (c - 1))
        → look_from above own wanted last c ≡ look_from over other asked last c }
{}

/// Whether a row wants the single size by its attributes, and nothing covers it from above.
#[inline(always)]
fn is_single_beneath(full: &Full, above: &RowLooks) -> bool
    ensures single { result ≡ true → full.now.size ≡ Normal }
    ensures uncovered { result ≡ true → (c : ℕ)
        → covers_below (part_of (look_at above.now c)) ≡ false }
{
    matches!(full.size, Size::Normal) && above.covers_nothing()
}

/// The looks of a row up to the first cell that isn't plain, where nothing covers it, and of no
/// column where something may. It answers the column after them.
#[inline(always)]
fn each_first(source: &RowSource, full: &Full, above: &RowLooks, looks: &mut RowLooks) -> u8
    requires { full.now ≡ attributes_by source.now unset_pen }
    ensures from_left { 1 ≤ result }
    ensures to_right { result ≤ 41 }
    ensures looks { IsMadeTo (place_made source.now above.now) looks.old looks.new (result - 1) }
{
    if !is_single_beneath(full, above) {
        looks.columns_by_type();
        return 1;
    }
    each_plain(source, full, looks)
}

/// The looks of what stands in each cell of a row by itself, up to the first that isn't plain, by
/// the attributes of all that has no pen. It answers the column of that one, else 41.
fn each_plain(source: &RowSource, full: &Full, looks: &mut RowLooks) -> u8
    requires { full.now ≡ attributes_by source.now unset_pen }
    ensures from_left { 1 ≤ result }
    ensures to_right { result ≤ 41 }
    ensures looks { IsMadeTo (own_look source.now) looks.old looks.new (result - 1) }
    ensures size { (c : ℕ) → 1 ≤ c → c < result
        → sets_double_size (row_in source.now.cells c) ≡ false }
{
    looks.columns_by_type();
    source.valid_by_type();
    let mut brush = Brush::new(full, source);
    let blank = brush.space;
    for number in 1..41u8 {
        let column = Column::numbered(number);
        let what = source.what(column);
        if !is_plain(what) {
            return number;
        }
        looks.put_single(column, small_among(what, &blank, &mut brush, source));
    }
    41
}

/// The looks of a row from a column on, where those to the left of it are already so, and to the right of
/// another column those are so that follow one which is, or which shows the left side of a wide sign
/// neither before nor after. Answers a column to whose right all stay as they are.
// A call of its own: the walk along a plain row has then more at hand.
#[inline(never)]
fn each_between(
    source: &RowSource,
    from: Column,
    until: u8,
    above: &RowLooks,
    looks: &mut RowLooks,
) -> u8
    requires { IsMadeBeside (place_made source.now above.now) from until looks.old }
    ensures { IsMadeFrom source.now above.now from result looks.old looks.new }
{
    above.columns_by_type();
    looks.columns_by_type();
    source.valid_by_type();
    let mut walk = Walk::before(from, source);
    let mut covered = is_covered_from_left(looks, from, above);
    for number in from.number()..41 {
        let column = Column::numbered(number);
        let ended = may_end(looks, column, until);
        covered = put_place(looks, column, covered, &mut walk, source, above);
        if ended & may_end(looks, column, until) {
            return number;
        }
    }
    40
}

/// Whether a row may end in a column, which isn't left of this one: the look there covers nothing to its
/// right.
#[inline(always)]
fn may_end(looks: &RowLooks, column: Column, until: u8) -> bool
    ensures past { result ≡ true → until ≤ column }
    ensures free { result ≡ true → covers_right (part_of (look_at looks.now column)) ≡ false }
{
    column.number() >= until && !looks.covers_right(column)
}
