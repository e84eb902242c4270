//! Rows of a page: what one is made of, its looks beneath those of the row above it, and what it names.

ghost use Rattle.std.specs.Prelude.{◌≡◌, ◌≤◌, ◌+◌, ℕ, false};
ghost use Rattle.cept_codes.specs.Look.{blank_look};
ghost use Rattle.cept_codes.specs.Place.{OnScreen};
ghost use Rattle.cept_profile.specs.Look.{looks_of};
ghost use Rattle.cept_profile.specs.RowsFromAbove.{looks_in};
ghost use Rattle.cept_profile.specs.State.{Core};
ghost use Rattle.cept_profile.specs.Tiling.{column_entry};
ghost use Rattle.cept_profile.specs.Valid.{IsValidPage};
ghost use Rattle.cept_redraw.specs.Kept.{core_on};
ghost use Rattle.cept_redraw.specs.inside.Kept.{row_beneath, source_of, IsLeftOf, IsRightOf};
ghost use Rattle.cept_redraw.specs.Named.{names_beneath};
ghost use Rattle.cept_rows.specs.KeptNames.{names_kept};
ghost use Rattle.cept_rows.specs.RowsByCell.{FollowsToTheRight};
ghost use Rattle.cept_rows.specs.Source.{row_made};

use cept_codes::{Column, Row};
use cept_outside::Steps;
use cept_page::Page;
use cept_rows::{RowLooks, RowNames, RowSource, name_cells, resolve_cells, resolve_cells_between};
use std::sync::ledger::Ledger;

/// What a row is made of, as one that isn't last.
#[inline(always)]
pub(crate) fn row_source<'p>(page: &'p Page, row: Row) -> RowSource<'p>
    requires { IsValidPage page.now }
    ensures { result ≡ source_of page.now row false }
{
    RowSource::new(
        page.cells(row),
        page.row_pen(row),
        page.screen_pen(),
        page.colours(),
        page.patterns(),
    )
}

/// Resolves the looks of a row beneath those of the row above. One tick.
pub(crate) fn resolve_row<L: Ledger>(
    page: &Page,
    row: Row,
    above: &RowLooks,
    last: bool,
    looks: &mut RowLooks,
    steps: &mut Steps<L>,
)
    requires valid { IsValidPage page.now }
    ensures looks { looks.new ≡ row_beneath above.now page.now row last }
    ensures tick { steps.new ≡ steps.old + 1 }
{
    resolve_cells(&row_source(page, row).ending(last), above, looks, steps);
}

/// What a row names, by its looks, beneath a row of which this is kept.
pub(crate) fn name_row(page: &Page, row: Row, above: &RowNames, looks: &RowLooks) -> RowNames
    requires valid { IsValidPage page.now }
    ensures { (k : Core) (c : ℕ) → OnScreen row c
        → looks.now ≡ looks_in (looks_of (core_on k page.now)) row
        → names_kept result c ≡ names_beneath above.now (core_on k page.now) row c }
{
    let mut names = RowNames::blank();
    name_cells(&row_source(page, row), above, looks, &mut names);
    names
}

/// Resolves the looks of a row beneath those of the row above, where to the left of a column the row
/// looks so already, and to the right of another each place that follows one which does, or which
/// covers nothing to its right before and after. Answers a column to whose right all looks stay as
/// they are. One tick.
pub(crate) fn resolve_between<L: Ledger>(
    source: &RowSource,
    from: Column,
    until: u8,
    above: &RowLooks,
    looks: &mut RowLooks,
    steps: &mut Steps<L>,
) -> u8
    requires left { IsLeftOf from looks.old (row_made source.now above.now) }
    requires right { FollowsToTheRight until (column_entry blank_look looks.old)
        (column_entry blank_look (row_made source.now above.now)) }
    ensures looks { looks.new ≡ row_made source.now above.now }
    ensures order { from ≤ result + 1 }
    ensures to_right { result ≤ 40 }
    ensures stays { IsRightOf result looks.old looks.new }
    ensures tick { steps.new ≡ steps.old + 1 }
{
    // Tells the prover that the column is one.
    let _number = from.number();
    resolve_cells_between(source, from, until, above, looks, steps)
}
