ghost use Rattle.std.specs.Prelude.{◌≡◌, ◌+◌, ◌-◌, ◌<◌, length, slice_set, IfOk};
ghost use Rattle.cept_codes.specs.Look.{IsValidLook, blank_look};
ghost use Rattle.cept_codes.specs.Place.{OnScreen};
ghost use Rattle.cept_codes.specs.Table.{list_by_index, row_of, table, IsTable};
ghost use Rattle.cept_profile.specs.Changes.{look_at, grid_with_paint};
ghost use Rattle.cept_profile.specs.RowsFromAbove.{looks_in};
ghost use Rattle.cept_profile.specs.Tiling.{column_entry};
ghost use Rattle.cept_redraw.specs.inside.Kept.{is_other_look};
ghost use Rattle.cept_rows.specs.Flagged.{look_after, looks_differ};
ghost use Rattle.cept_rows.specs.Source.{look_by_itself};

use cept_codes::{Look, NoMemory, Pos, Row};
use cept_outside::Steps;
use cept_rows::{RowLooks, RowSource};
use std::alloc::Global;
use std::marker::Model;
use std::sync::ledger::Ledger;

/// The looks of the screen, as they are kept: 24 rows of 40 from the top, and the blank ones above the
/// first.
#[derive(Drop)]
pub struct KeptRows {
    rows: Vec<RowLooks>,
    flat: RowLooks,
}

impl Model for KeptRows {
    ghost use Rattle.std.specs.Prelude.{List, ◌≡◌};
    ghost use Rattle.cept_codes.specs.Table.{IsTable};
    ghost use Rattle.cept_codes.specs.declared.look.Look.{Look};
    ghost use Rattle.cept_profile.specs.RowsFromAbove.{blank_looks};

    ghost Value = { List (List Look) };

    ghost view = { λ l. l.rows.items };

    ghost invariant = { λ l. IsTable l.rows.items × (l.flat ≡ blank_looks) };
}

impl KeptRows {
    /// All looks blank.
    pub fn new(alloc: Global) -> Result<KeptRows, NoMemory>
        ensures { IfOk result (λ looks. looks ≡ table (λ _ _. blank_look)) }
    {
        let mut rows = Vec::with_capacity(alloc, 24)?;
        for _row in 0..24usize {
            rows.push(RowLooks::flat())?;
        }
        Ok(KeptRows {
            rows,
            flat: RowLooks::flat(),
        })
    }

    /// The looks of a row, where they stand.
    pub fn row(&self, row: Row) -> &RowLooks
        ensures { result.now ≡ looks_in self.now row }
    {
        &self.rows[row.index()]
    }

    /// The looks of the row above a row, where they stand.
    pub(crate) fn above(&self, row: Row) -> &RowLooks
        ensures { result.now ≡ looks_in self.now (row - 1) }
    {
        match row.above() {
            Some(above) => self.row(above),
            None => &self.flat,
        }
    }

    /// The look at a place.
    pub fn get(&self, place: Pos) -> Look
        ensures look { result ≡ look_at self.now place }
        ensures valid { IsValidLook result }
        ensures on_screen { OnScreen place.row place.column }
    {
        self.rows[place.in_row().index()].at(place.col())
    }

    /// Tells the prover that there are 24 rows of 40: reading a field opens the model.
    pub(crate) fn whole_by_type(&self)
        ensures { IsTable self.now }
    {
        let _rows = &self.rows;
    }

    /// Takes over the looks of a row.
    pub(crate) fn copy_row(&mut self, row: Row, looks: &RowLooks)
        ensures rows { self.new ≡ slice_set self.old (row - 1) looks.now }
        ensures columns { length looks.now ≡ 40 }
    {
        looks.columns_by_type();
        self.rows[row.index()].copy_from(looks);
    }

    /// Takes over the looks of a row from a row below it.
    pub(crate) fn copy_up(&mut self, row: Row, from: Row)
        requires { row < from }
        ensures { self.new ≡ slice_set self.old (row - 1) (looks_in self.old from) }
    {
        let (above, below) = self.rows.split_at_mut(from.index());
        above[row.index()].copy_from(&below[0]);
    }

    /// Takes over the look at a place from the looks of its row.
    pub fn copy_at(&mut self, place: Pos, from: &RowLooks)
        ensures { self.new
            ≡ grid_with_paint self.old place (column_entry blank_look from.now place.column) }
    {
        self.rows[place.in_row().index()].copy_at(place.in_column(), from);
    }

    /// Takes over the looks of the flagged columns of a row from another's.
    pub fn copy_flagged(&mut self, row: Row, flags: &[bool], from: &RowLooks)
        requires columns { length flags.now ≡ 40 }
        ensures { self.new ≡ slice_set self.old (row - 1)
            (row_of (look_after flags.now (column_entry blank_look from.now) (looks_in self.old row))) }
    {
        self.whole_by_type();
        self.rows[row.index()].copy_flagged(flags, from);
    }

    /// Resolves the cell at a place by itself, by what its row is made of, and keeps its look. Answers
    /// whether it differs from the one before. One tick.
    pub(crate) fn resolve_alone<L: Ledger>(
        &mut self,
        place: Pos,
        source: &RowSource,
        steps: &mut Steps<L>,
    ) -> bool
        ensures looks { self.new
            ≡ grid_with_paint self.old place (look_by_itself source.now place.column) }
        ensures differs { result
            ≡ is_other_look (look_at self.old place) (look_by_itself source.now place.column) }
        ensures on_screen { OnScreen place.row place.column }
        ensures tick { steps.new ≡ steps.old + 1 }
    {
        let kept = &mut self.rows[place.in_row().index()];
        kept.resolve_alone(place.in_column(), source, steps)
    }

    /// Resolves the cells of the flagged columns of a row, each by itself, and keeps their looks.
    /// Answers for each column whether its look differs from the one before. One tick.
    pub(crate) fn resolve_columns<L: Ledger>(
        &mut self,
        row: Row,
        flags: &[bool; 40],
        source: &RowSource,
        steps: &mut Steps<L>,
    ) -> [bool; 40]
        ensures looks { self.new ≡ slice_set self.old (row - 1)
            (row_of (look_after flags.now (look_by_itself source.now) (looks_in self.old row))) }
        ensures differ { result
            ≡ list_by_index 1 40 (looks_differ (looks_in self.old row) (looks_in self.new row)) }
        ensures tick { steps.new ≡ steps.old + 1 }
    {
        self.whole_by_type();
        let kept = &mut self.rows[row.index()];
        kept.resolve_columns(flags, source, steps)
    }
}
