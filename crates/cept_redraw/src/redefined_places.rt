ghost use Rattle.std.specs.Prelude.{◌≡◌, ◌+◌, ◌-◌, ◌||◌, false, not, length, slice_set, if◌then◌else◌};
ghost use Rattle.std.specs.List.{AllByRecursion};
ghost use Rattle.cept_codes.specs.Look.{blank_look};
ghost use Rattle.cept_codes.specs.Same.{same_look};
ghost use Rattle.cept_codes.specs.Stroke.{IsValidStroke};
ghost use Rattle.cept_codes.specs.Table.{entry, list_by_index, row_of};
ghost use Rattle.cept_profile.specs.Names.{pattern_shown};
ghost use Rattle.cept_profile.specs.RowsFromAbove.{looks_in};
ghost use Rattle.cept_profile.specs.Tiling.{column_entry};
ghost use Rattle.cept_profile.specs.Valid.{IsValidPage};
ghost use Rattle.cept_redraw.specs.inside.Due.{at_rest};
ghost use Rattle.cept_redraw.specs.inside.Kept.{IsRefreshedRow, look_alone};
ghost use Rattle.cept_redraw.specs.Named.{row_named};
ghost use Rattle.cept_redraw.specs.inside.Picture.{AreLooksRefreshed, HasSameRest, MayBeRefreshed};
ghost use Rattle.cept_redraw.specs.inside.Redefined.{OtherPlacesStay, is_place_redefined, places_resolved};
ghost use Rattle.cept_redraw.specs.inside.Redefined.{redefines_place};
ghost use Rattle.cept_rows.specs.KeptNames.{names_kept};

use crate::kept_rows::KeptRows;
use crate::marks::Marks;
use crate::picture::Picture;
use crate::resolved_rows::row_source;
use cept_codes::{Row, Stroke};
use cept_control::Edges;
use cept_outside::Steps;
use cept_page::Page;
use cept_rows::{RowLooks, RowNames};
use std::sync::ledger::Ledger;

impl Picture {
    /// Resolves the flagged rows and those that are covered otherwise than before, from the top, where
    /// no row moved: of a flagged row that stands alone only the places that the strokes redefine.
    pub(crate) fn refresh_redefined<L: Ledger>(
        &mut self,
        strokes: &[Stroke],
        flags: &[bool; 24],
        edges: &Edges,
        marks: &mut Marks,
        steps: &mut Steps<L>,
    )
        requires each { AllByRecursion IsValidStroke strokes.now }
        requires flags { length flags.now ≡ 24 }
        requires may { MayBeRefreshed flags.now at_rest self.old edges.now marks.old }
        requires places { OtherPlacesStay strokes.now self.old.names self.old.looks self.old.page }
        ensures { AreLooksRefreshed flags.now at_rest edges.now self.old self.new marks.new steps.old steps.new }
    {
        self.looks.whole_by_type();
        let mut covered = false;
        for row in 1..25u8 {
            let here = Row::numbered(row);
            let flag = flags[usize::from(row) - 1];
            let alone = flag & !covered & self.page.stands_alone(here);
            if alone {
                self.refresh_places(here, strokes, marks, steps);
            } else if flag | covered {
                covered = self.refresh_row(here, edges.is_last(row), marks, steps);
            }
        }
    }

    /// Resolves the places of a row that the strokes redefine, each by itself, keeps their looks, and
    /// marks those that differ from the ones before. One tick.
    fn refresh_places<L: Ledger>(
        &mut self,
        row: Row,
        strokes: &[Stroke],
        marks: &mut Marks,
        steps: &mut Steps<L>,
    )
        requires valid { IsValidPage self.old.page }
        requires each { AllByRecursion IsValidStroke strokes.now }
        ensures rest { HasSameRest self.old self.new }
        ensures refreshed { IsRefreshedRow (places_resolved strokes.now (row_named self.old.names row)
            (looks_in self.old.looks row) self.old.page row) row self.old.looks self.new.looks marks.old marks.new }
        ensures tick { steps.new ≡ steps.old + 1 }
    {
        self.looks.whole_by_type();
        // Tells the prover that the row is one.
        let _number = row.number();
        let flags = places_redefined(strokes, self.names.row(row), self.looks.row(row));
        let differ = resolve_columns(&self.page, row, &flags, &mut self.looks, steps);
        marks.mark_row(row, &differ);
    }
}

/// Resolves the flagged columns of a row, each by itself, and keeps their looks. Answers for each column
/// whether its look differs from the one before. One tick.
fn resolve_columns<L: Ledger>(
    page: &Page,
    row: Row,
    flags: &[bool; 40],
    kept: &mut KeptRows,
    steps: &mut Steps<L>,
) -> [bool; 40]
    requires { IsValidPage page.now }
    ensures looks { kept.new ≡ slice_set kept.old (row - 1) (row_of (λ c. if entry false 1 flags.now c
        then look_alone page.now (record { row = row; column = c })
        else column_entry blank_look (looks_in kept.old row) c)) }
    ensures differ { result ≡ list_by_index 1 40 (λ c. not (same_look
        (column_entry blank_look (looks_in kept.old row) c)
        (column_entry blank_look (looks_in kept.new row) c))) }
    ensures tick { steps.new ≡ steps.old + 1 }
{
    kept.resolve_columns(row, flags, &row_source(page, row), steps)
}

/// For each column of a row with these names and looks, whether one of the strokes may define anew what
/// it depends on.
fn places_redefined(strokes: &[Stroke], names: &RowNames, looks: &RowLooks) -> [bool; 40]
    requires each { AllByRecursion IsValidStroke strokes.now }
    ensures { result ≡ list_by_index 1 40 (is_place_redefined strokes.now names.now looks.now) }
{
    let mut flags = [false; 40];
    for stroke in strokes {
        flag_redefined(stroke, names, looks, &mut flags);
    }
    flags
}

/// Flags besides the columns of a row for which a stroke may do so.
fn flag_redefined(stroke: &Stroke, names: &RowNames, looks: &RowLooks, flags: &mut [bool; 40])
    requires valid { IsValidStroke stroke.now }
    requires columns { length flags.old ≡ 40 }
    ensures { flags.new ≡ list_by_index 1 40 (λ c. entry false 1 flags.old c
        || redefines_place (names_kept names.now c) (pattern_shown (column_entry blank_look looks.now c).shape)
        stroke.now) }
{
    match stroke {
        Stroke::Colour(entry, _) => {
            names.flag_entry(*entry, flags);
            looks.flag_inked(flags);
        }
        Stroke::Dclut(_, _) => looks.flag_inked(flags),
        Stroke::ColourDefaults => *flags = [true; 40],
        Stroke::Drcs(code, _) => names.flag_code(*code, flags),
        Stroke::DrcsClear => names.flag_codes(flags),
        // These define nothing.
        Stroke::Put(_, _)
        | Stroke::Erase(_, _)
        | Stroke::Wipe
        | Stroke::Shift(_, _, _)
        | Stroke::Carry(_, _, _)
        | Stroke::RowAttr(_, _)
        | Stroke::ScreenAttr(_)
        | Stroke::ScreenClear
        | Stroke::Format(_) => {}
    }
}
