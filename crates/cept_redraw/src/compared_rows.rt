ghost use Rattle.std.specs.Prelude.{◌≡◌, ◌≤◌, ◌+◌, false};
ghost use Rattle.cept_redraw.specs.inside.Kept.{HasMarkedRow, IsLeftOf, IsRightOf, is_other_above};

use crate::marks::Marks;
use cept_codes::{Column, Row};
use cept_rows::{Differences, RowLooks};

/// Marks the places of a row at which two rows of looks differ.
pub(crate) fn mark_differences(row: Row, was: &RowLooks, now: &RowLooks, marks: &mut Marks)
    ensures { HasMarkedRow was.now now.now row 41 marks.old marks.new }
{
    let _found = mark_differences_between(row, Column::numbered(1), 40, was, now, marks);
}

/// The same where they are known to be the same to the left of a column and to the right of another.
/// Answers how they differ.
pub(crate) fn mark_differences_between(
    row: Row,
    from: Column,
    until: u8,
    was: &RowLooks,
    now: &RowLooks,
    marks: &mut Marks,
) -> Differences
    requires order { from ≤ until + 1 }
    requires to_right { until ≤ 40 }
    requires left { IsLeftOf from was.now now.now }
    requires right { IsRightOf until was.now now.now }
    ensures marked { HasMarkedRow was.now now.now row 41 marks.old marks.new }
    ensures same { result.any ≡ false → was.now ≡ now.now }
    ensures covering { result.covering ≡ is_other_above was.now now.now }
{
    let found = was.differences(now, from, until);
    marks.mark_row(row, &found.columns);
    found
}

/// Whether one of the looks that differ covers the place below it.
pub(crate) fn covers_otherwise(was: &RowLooks, now: &RowLooks) -> bool
    ensures { result ≡ is_other_above was.now now.now }
{
    if was.covers_nothing() & now.covers_nothing() {
        return false;
    }
    was.differences(now, Column::numbered(1), 40).covering
}
