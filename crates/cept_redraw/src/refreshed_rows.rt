//! Rows of a picture resolved anew: from the top, or from one row down as long as the next is covered
//! otherwise than before.

ghost use Rattle.std.specs.Prelude.{◌≡◌, ◌≤◌, ◌<◌, ◌+◌, ◌-◌, ℕ, false, length, slice_set};
ghost use Rattle.cept_codes.specs.Look.{blank_look};
ghost use Rattle.cept_profile.specs.RowsFromAbove.{looks_in};
ghost use Rattle.cept_profile.specs.Tiling.{column_entry};
ghost use Rattle.cept_profile.specs.Valid.{IsValidPage};
ghost use Rattle.cept_redraw.specs.inside.Due.{at_rest};
ghost use Rattle.cept_redraw.specs.inside.Kept.{is_other_above, row_beneath, IsLeftOf, IsRefreshedRow, IsRightOf};
ghost use Rattle.cept_redraw.specs.inside.Picture.{AreLooksRefreshed, IsRowRenewed, MayBeRefreshed, MayBeRefreshedDown};
ghost use Rattle.cept_redraw.specs.inside.Picture.{just_row};
ghost use Rattle.cept_rows.specs.RowsByCell.{FollowsToTheRight};

use crate::compared_rows::mark_differences_between;
use crate::kept_rows::KeptRows;
use crate::marks::Marks;
use crate::picture::Picture;
use crate::resolved_rows::{resolve_between, resolve_row, row_source};
use cept_codes::{Column, Row};
use cept_control::Edges;
use cept_outside::Steps;
use cept_rows::RowLooks;
use std::sync::ledger::Ledger;

/// How a row was refreshed: whether what covers the row below differs, and a column to whose right it looks
/// as it did.
#[derive(Clone, Copy)]
struct Refreshed {
    covering: bool,
    end: u8,
}

impl Picture {
    /// Resolves the flagged rows and those that are covered otherwise than before, from the top, where no
    /// row moved.
    pub(crate) fn refresh_rows<L: Ledger>(
        &mut self,
        flags: &[bool; 24],
        edges: &Edges,
        marks: &mut Marks,
        steps: &mut Steps<L>,
    )
        requires flags { length flags.now ≡ 24 }
        requires may { MayBeRefreshed flags.now at_rest self.old edges.now marks.old }
        ensures { AreLooksRefreshed flags.now at_rest edges.now self.old self.new marks.new steps.old steps.new }
    {
        self.looks.whole_by_type();
        let mut covered = false;
        for row in 1..25u8 {
            let flag = flags[usize::from(row) - 1];
            if flag | covered {
                let last = edges.is_last(row);
                covered = self.refresh_row(Row::numbered(row), last, marks, steps);
            }
        }
    }

    /// Resolves a row from a column on, to whose left it looks as it did, and each row below it as long as
    /// it is covered otherwise than before. To the right of another column the row looks as it did where
    /// nothing covers it otherwise.
    pub(crate) fn refresh_down<L: Ledger>(
        &mut self,
        row: u8,
        from: u8,
        until: u8,
        edges: &Edges,
        marks: &mut Marks,
        steps: &mut Steps<L>,
    )
        requires { MayBeRefreshedDown row from until self.old edges.now marks.old }
        ensures { AreLooksRefreshed (just_row row) at_rest edges.now self.old self.new marks.new steps.old
            steps.new }
    {
        self.looks.whole_by_type();
        let mut first = Column::numbered(from);
        let mut end = until;
        for at in row..25u8 {
            let last = edges.is_last(at);
            let here = Row::numbered(at);
            let found = self.refresh_row_between(here, first, end, last, marks, steps);
            if !found.covering {
                return;
            }
            first = to_the_left(first);
            end = found.end + 1;
        }
    }

    /// Resolves a row beneath the looks kept of the row above, keeps its looks, and marks the places at
    /// which they differ from those before. Answers whether what covers the row below differs. One tick.
    pub(crate) fn refresh_row<L: Ledger>(
        &mut self,
        row: Row,
        last: bool,
        marks: &mut Marks,
        steps: &mut Steps<L>,
    ) -> bool
        requires { IsValidPage self.old.page }
        ensures { IsRowRenewed row last self.old self.new marks.old marks.new result steps.old steps.new }
    {
        resolve_row(
            &self.page,
            row,
            self.looks.above(row),
            last,
            &mut self.fresh,
            steps,
        );
        take_row(
            row,
            Column::numbered(1),
            40,
            &self.fresh,
            &mut self.looks,
            marks,
        )
    }

    /// The same, where to the left of a column the row looks so already, and to the right of another each
    /// place that follows one which does, or which covers nothing to its right before and after.
    fn refresh_row_between<L: Ledger>(
        &mut self,
        row: Row,
        from: Column,
        until: u8,
        last: bool,
        marks: &mut Marks,
        steps: &mut Steps<L>,
    ) -> Refreshed
        requires valid { IsValidPage self.old.page }
        requires left { IsLeftOf from (looks_in self.old.looks row)
            (row_beneath (looks_in self.old.looks (row - 1)) self.old.page row last) }
        requires right { FollowsToTheRight until (column_entry blank_look (looks_in self.old.looks row))
            (column_entry blank_look (row_beneath (looks_in self.old.looks (row - 1)) self.old.page row last)) }
        ensures row { IsRowRenewed row last self.old self.new marks.old marks.new result.covering steps.old
            steps.new }
        ensures to_right { result.end ≤ 40 }
        ensures stays { IsRightOf result.end (looks_in self.old.looks row) (looks_in self.new.looks row) }
    {
        // Tells the prover that the row is one.
        let _number = row.number();
        let source = row_source(&self.page, row).ending(last);
        self.fresh.copy_from(self.looks.row(row));
        let end = resolve_between(
            &source,
            from,
            until,
            self.looks.above(row),
            &mut self.fresh,
            steps,
        );
        let covering = take_row(row, from, end, &self.fresh, &mut self.looks, marks);
        Refreshed { covering, end }
    }
}

/// The column to the left of a column, or the first.
fn to_the_left(column: Column) -> Column
    ensures { (c : ℕ) → 1 ≤ c → c < result → c + 1 < column }
{
    match column.left() {
        Some(left) => left,
        None => column,
    }
}

/// Keeps these looks of a row, and marks the places at which they differ from those before, which are
/// the same to the left of a column and to the right of another. Answers whether what covers the row below
/// differs.
fn take_row(
    row: Row,
    from: Column,
    until: u8,
    looks: &RowLooks,
    kept: &mut KeptRows,
    marks: &mut Marks,
) -> bool
    requires order { from ≤ until + 1 }
    requires to_right { until ≤ 40 }
    requires left { IsLeftOf from (looks_in kept.old row) looks.now }
    requires right { IsRightOf until (looks_in kept.old row) looks.now }
    ensures refreshed { IsRefreshedRow looks.now row kept.old kept.new marks.old marks.new }
    ensures covering { result ≡ is_other_above (looks_in kept.old row) (looks_in kept.new row) }
{
    kept.whole_by_type();
    looks.columns_by_type();
    // Tells the prover that the row is one.
    let _number = row.number();
    let found = mark_differences_between(row, from, until, kept.row(row), looks, marks);
    keep_row(row, looks, found.any, kept);
    found.covering
}

/// Keeps these looks of a row, where they aren't known to be those that it has.
fn keep_row(row: Row, looks: &RowLooks, differ: bool, kept: &mut KeptRows)
    requires { differ ≡ false → looks_in kept.old row ≡ looks.now }
    ensures { kept.new ≡ slice_set kept.old (row - 1) looks.now }
{
    // Tells the prover that the row is one.
    let _number = row.number();
    if differ {
        kept.copy_row(row, looks);
    }
}
