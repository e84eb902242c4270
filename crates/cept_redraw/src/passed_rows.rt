//! Rows as they stood before rows moved, where a walk from the top has passed them.

ghost use Rattle.std.specs.Prelude.{◌≡◌, ◌≤◌, ◌+◌, ◌-◌};
ghost use Rattle.cept_profile.specs.RowsFromAbove.{blank_looks};
ghost use Rattle.cept_redraw.specs.inside.Passed.{stood_in};

use crate::kept_rows::KeptRows;
use cept_codes::Row;
use cept_rows::RowLooks;

/// The looks that stood in the two rows above one, before rows moved.
#[derive(Drop)]
pub struct Passed {
    pub(crate) near: RowLooks,
    pub(crate) far: RowLooks,
}

impl Passed {
    /// All looks blank.
    pub(crate) fn new() -> Passed {
        Passed {
            near: RowLooks::flat(),
            far: RowLooks::flat(),
        }
    }

    /// Nothing stands above the first row.
    pub(crate) fn begin(&mut self, kept: &KeptRows)
        ensures { self.new.near ≡ blank_looks }
    {
        self.near.copy_from(kept.above(Row::numbered(1)));
    }

    /// A row is passed in which these looks stood.
    pub(crate) fn pass(&mut self, looks: &RowLooks)
        ensures near { self.new.near ≡ looks.now }
        ensures far { self.new.far ≡ self.old.near }
    {
        self.far.copy_from(&self.near);
        self.near.copy_from(looks);
    }

    /// The looks that stood in a row, where those that are kept stand as before from this row on.
    pub(crate) fn stood<'x>(&'x self, kept: &'x KeptRows, row: Row, from: u8) -> &'x RowLooks
        requires passed { row ≤ from + 2 }
        requires to_bottom { from ≤ 24 }
        ensures { result.now ≡ stood_in self.now kept.now row from }
    {
        let number = row.number();
        if from >= number {
            kept.row(Row::numbered(from))
        } else if from + 1 == number {
            &self.near
        } else {
            &self.far
        }
    }
}
