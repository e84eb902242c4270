ghost use Rattle.std.specs.Prelude.{◌≡◌, ◌≤◌, ◌+◌, ◌-◌, ◌==◌, ℕ, false, true, length, None, IfSome};
ghost use Rattle.std.specs.Prelude.{if◌then◌else◌};
ghost use Rattle.cept_codes.specs.Stroke.{IsRow};
ghost use Rattle.cept_codes.specs.Table.{entry};
ghost use Rattle.cept_profile.specs.RowsFromAbove.{looks_in};
ghost use Rattle.cept_redraw.specs.inside.Due.{came_from, row_from};
ghost use Rattle.cept_redraw.specs.inside.Kept.{is_other_above};
ghost use Rattle.cept_redraw.specs.inside.Passed.{looks_back, stood_in, GoDownByOne, HasTaken, NoneLooksBack};
ghost use Rattle.cept_redraw.specs.inside.Picture.{AreLooksRefreshed, MayBeRefreshed};

use crate::compared_rows::{covers_otherwise, mark_differences};
use crate::followed_rows::Followed;
use crate::kept_rows::KeptRows;
use crate::marks::Marks;
use crate::passed_rows::Passed;
use crate::picture::Picture;
use crate::resolved_rows::resolve_row;
use cept_codes::Row;
use cept_control::Edges;
use cept_outside::Steps;
use cept_rows::RowLooks;
use std::sync::ledger::Ledger;

impl Picture {
    /// Resolves the flagged rows and those that are covered otherwise than before, from the top, where
    /// rows moved: the looks of the others go with their rows.
    pub(crate) fn move_rows<L: Ledger>(
        &mut self,
        rows: &[Followed; 24],
        flags: &[bool; 24],
        edges: &Edges,
        marks: &mut Marks,
        steps: &mut Steps<L>,
    )
        requires rows { length rows.now ≡ 24 }
        requires flags { length flags.now ≡ 24 }
        requires may { MayBeRefreshed flags.now rows.now self.old edges.now marks.old }
        requires came { (r : ℕ) → 1 ≤ r → r ≤ 24 → IfSome (row_from rows.now r) IsRow }
        requires low { GoDownByOne rows.now }
        requires freed { (r : ℕ) → 1 ≤ r → r ≤ 24 → row_from rows.now r ≡ None
            → entry false 1 flags.now r ≡ true }
        ensures { AreLooksRefreshed flags.now rows.now edges.now self.old self.new marks.new steps.old steps.new }
    {
        let page = &self.page;
        let looks = &mut self.looks;
        let fresh = &mut self.fresh;
        let passed = &mut self.passed;
        looks.whole_by_type();
        let back = one_looks_back(rows);
        passed.begin(looks);
        let mut above = 0;
        let mut covered = false;
        for row in 1..25u8 {
            let here = Row::numbered(row);
            let at = usize::from(row) - 1;
            let from = came_from(rows[at].from, here);
            if flags[at] || is_covered(from, above, covered, passed, looks, here) {
                resolve_row(
                    page,
                    here,
                    looks.above(here),
                    edges.is_last(row),
                    fresh,
                    steps,
                );
                covered = covers_otherwise(passed.stood(looks, here, from.number()), fresh);
                take_anew(here, fresh, back, looks, passed, marks);
            } else {
                covered = false;
                bring_row(here, from, back, fresh, looks, passed, marks);
            }
            above = from.number();
        }
    }
}

/// Whether a row came of one above it, or of itself beneath one that came of another: what stood above
/// it is then asked for when it is passed.
fn one_looks_back(rows: &[Followed; 24]) -> bool
    requires { length rows.now ≡ 24 }
    ensures { result ≡ false → NoneLooksBack rows.now }
{
    let mut above = 0;
    for row in 1..25u8 {
        let at = usize::from(row) - 1;
        if looks_back(rows[at].from, row, above) {
            return true;
        }
        above = came_from(rows[at].from, Row::numbered(row)).number();
    }
    false
}

/// Whether this one does, beneath a row that came of that one.
fn looks_back(from: Option<Row>, row: u8, above: u8) -> bool
    ensures { result ≡ looks_back from row above }
{
    match from {
        Some(from) => from.number() < row || (from.number() == row && above != row - 1),
        None => false,
    }
}

/// The row of which one came, or itself where it was freed.
fn came_from(from: Option<Row>, row: Row) -> Row
    ensures { result ≡ came_from from row }
{
    match from {
        Some(from) => from,
        None => row,
    }
}

/// Whether a row is covered otherwise than the row before was of which it came: as is known, where
/// the row above came of the row above that one, else by the looks that stood above that one and are
/// above it.
fn is_covered(
    from: Row,
    above: u8,
    covered: bool,
    passed: &Passed,
    kept: &KeptRows,
    row: Row,
) -> bool
    requires { row ≤ from + 1 }
    ensures { result ≡ (if from - 1 == above then covered else
        is_other_above (stood_in passed.now kept.now row (from - 1)) (looks_in kept.now (row - 1))) }
{
    let over = from.number() - 1;
    if over == above {
        covered
    } else {
        covers_otherwise(passed.stood(kept, row, over), kept.above(row))
    }
}

/// A row takes these looks, and the places at which they differ from those before are marked. What stood
/// in it is passed, where it may be asked for.
fn take_anew(
    row: Row,
    looks: &RowLooks,
    back: bool,
    kept: &mut KeptRows,
    passed: &mut Passed,
    marks: &mut Marks,
)
    ensures { HasTaken looks.now row back kept.old kept.new passed.old passed.new marks.old marks.new }
{
    mark_differences(row, kept.row(row), looks, marks);
    if back {
        passed.pass(kept.row(row));
    }
    kept.copy_row(row, looks);
}

/// A row takes the looks that stood in the row of which it came, which is no further than one above it.
fn bring_row(
    row: Row,
    from: Row,
    back: bool,
    fresh: &mut RowLooks,
    kept: &mut KeptRows,
    passed: &mut Passed,
    marks: &mut Marks,
)
    requires { row ≤ from + 1 }
    ensures { HasTaken (stood_in passed.old kept.old row from) row back kept.old kept.new passed.old passed.new
        marks.old marks.new }
{
    if from.number() > row.number() {
        mark_differences(row, kept.row(row), kept.row(from), marks);
        if back {
            passed.pass(kept.row(row));
        }
        kept.copy_up(row, from);
    } else {
        fresh.copy_from(passed.stood(kept, row, from.number()));
        take_anew(row, fresh, back, kept, passed, marks);
    }
}
