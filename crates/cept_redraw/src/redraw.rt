//! A picture redrawn: strokes are drawn on its page, and the rows resolved that they alter or cover otherwise, and no
//! others. The cases stand at the head of the crate.

ghost use Rattle.std.specs.Prelude.{◌≡◌, ◌≢◌, ◌+◌, true, false, if◌then◌else◌};
ghost use Rattle.std.specs.Prelude.{option_map};
ghost use Rattle.std.specs.List.{AllByRecursion};
ghost use Rattle.cept_codes.specs.Place.{OnScreen};
ghost use Rattle.cept_codes.specs.Stroke.{IsValidStroke};
ghost use Rattle.cept_codes.specs.Table.{list_by_index};
ghost use Rattle.cept_profile.specs.Changes.{differences};
ghost use Rattle.cept_profile.specs.Edges.{edges_of};
ghost use Rattle.cept_profile.specs.Look.{looks_of};
ghost use Rattle.cept_profile.specs.NotedStrokes.{with_strokes};
ghost use Rattle.cept_profile.specs.State.{Core, page_after};
ghost use Rattle.cept_profile.specs.Valid.{IsValidPage};
ghost use Rattle.cept_page.specs.Behind.{page_behind};
ghost use Rattle.cept_page.specs.Parts.{pens_of};
ghost use Rattle.cept_page.specs.MarkedRows.{StandsAlone};
ghost use Rattle.cept_control.specs.SignWithin.{put_alone};
ghost use Rattle.cept_redraw.specs.inside.Due.{at_rest, followed, is_altered};
ghost use Rattle.cept_redraw.specs.Kept.{core_on};
ghost use Rattle.cept_redraw.specs.inside.Kept.{OthersStay};
ghost use Rattle.cept_redraw.specs.Marks.{no_marks};
ghost use Rattle.cept_redraw.specs.inside.Named.{AreAllKnown, AreJustRemembered, IsUnmarkedBelow};
ghost use Rattle.cept_redraw.specs.Picture.{IsNotedAlong, IsRedrawn};
ghost use Rattle.cept_redraw.specs.Picture.{IsRedrawnAlong, MayBeRedrawn};
ghost use Rattle.cept_redraw.specs.inside.Picture.{AreRowsRedrawn, IsRefreshedOn, MayBeRefreshedDown};
ghost use Rattle.cept_redraw.specs.inside.Picture.{just_row};
ghost use Rattle.cept_redraw.specs.Resolved.{one_else};

use crate::altered_rows::{only_put, rows_altered};
use crate::followed_rows::{
    Followed, follow_rows, one_does_more, one_else, one_moved, rows_written,
};
use crate::kept_rows::KeptRows;
use crate::marks::Marks;
use crate::picture::Picture;
use crate::redefined_rows::rows_redefined;
use crate::resolved_rows::row_source;
use cept_codes::{Pos, Row, Stroke};
use cept_control::{Control, Edges, PutCell};
use cept_delta::Noter;
use cept_outside::Steps;
use cept_page::Page;
use cept_rows::{places_show_what_is_beside_them, rows_show_what_stands_to_the_left};
use std::sync::ledger::Ledger;

impl Picture {
    /// Draws the strokes on the page, resolves the rows that they alter or cover otherwise and no
    /// others, takes over the looks of those that moved, and keeps all looks. Marks the places at
    /// which these differ from those before, and no others. The page has these edges before and
    /// those after. Notes what the strokes change.
    pub fn redraw<N: Noter, L: Ledger>(
        &mut self,
        strokes: &[Stroke],
        before: &Edges,
        after: &Edges,
        marks: &mut Marks,
        noter: &mut N,
        steps: &mut Steps<L>,
    )
        requires { MayBeRedrawn strokes.now before.now after.now self.old }
        ensures { IsRedrawnAlong strokes.now before.now after.now self.old self.new marks.new steps.old
            steps.new (N.noted noter.old) (N.noted noter.new) }
    {
        marks.clear();
        if !before.is_same(after) {
            self.redraw_rows(strokes, before, after, marks, noter, steps);
            return;
        }
        if strokes.is_empty() {
            return;
        }
        self.redraw_drawn(strokes, after, marks, noter, steps);
    }

    /// The same where the edges stay: they are those of this control, which is asked only where they
    /// are needed.
    pub fn redraw_within<N: Noter, L: Ledger>(
        &mut self,
        strokes: &[Stroke],
        control: &Control,
        marks: &mut Marks,
        noter: &mut N,
        steps: &mut Steps<L>,
    )
        requires { MayBeRedrawn strokes.now (edges_of control.now) (edges_of control.now) self.old }
        ensures { IsRedrawnAlong strokes.now (edges_of control.now) (edges_of control.now) self.old self.new
            marks.new steps.old steps.new (N.noted noter.old) (N.noted noter.new) }
    {
        if let Some(put) = only_put(strokes) {
            self.redraw_put(&put, control, marks, noter, steps);
            return;
        }
        marks.clear();
        if strokes.is_empty() {
            return;
        }
        let within = control.edges();
        self.redraw_drawn(strokes, &within, marks, noter, steps);
    }

    /// The same where one cell is put, which is the only stroke.
    pub fn redraw_put<N: Noter, L: Ledger>(
        &mut self,
        put: &PutCell,
        control: &Control,
        marks: &mut Marks,
        noter: &mut N,
        steps: &mut Steps<L>,
    )
        requires { MayBeRedrawn (put_alone put.now) (edges_of control.now) (edges_of control.now) self.old }
        ensures { IsRedrawnAlong (put_alone put.now) (edges_of control.now) (edges_of control.now) self.old
            self.new marks.new steps.old steps.new (N.noted noter.old) (N.noted noter.new) }
    {
        marks.clear();
        // A law: a cell shows in no place to its left.
        rows_show_what_stands_to_the_left();
        // Another: a place shows what is beside it.
        places_show_what_is_beside_them();
        let among = self.page.puts_among_signs(put.place, &put.cell);
        if self.page.put(put.place, &put.cell, noter) {
            self.refresh_place(put.place, marks, steps);
        } else {
            let row = put.place.row();
            let from = put.place.col();
            let until = last_otherwise(from, among);
            let edges = control.edges();
            self.refresh_put(row, from, until, &edges, marks, steps);
        }
    }

    /// The same of any strokes, where nothing is marked yet. The page has these edges.
    fn redraw_drawn<N: Noter, L: Ledger>(
        &mut self,
        strokes: &[Stroke],
        edges: &Edges,
        marks: &mut Marks,
        noter: &mut N,
        steps: &mut Steps<L>,
    )
        requires none { marks.old ≡ no_marks }
        requires may { MayBeRedrawn strokes.now edges.now edges.now self.old }
        ensures done { IsRedrawnAlong strokes.now edges.now edges.now self.old self.new marks.new steps.old
            steps.new (N.noted noter.old) (N.noted noter.new) }

        // Where one of them defines nothing, and where all define something.
        ensures rows { one_else strokes.now ≡ true → AreRowsRedrawn strokes.now edges.now edges.now self.old
            self.new marks.new steps.old steps.new }
        ensures known { one_else strokes.now ≡ false → AreAllKnown self.new.names }
    {
        if one_else(strokes) {
            self.redraw_rows(strokes, edges, edges, marks, noter, steps);
        } else {
            self.redraw_defined(strokes, edges, marks, noter, steps);
        }
    }

    /// The same of any strokes and edges, where nothing is marked yet: just the rows that are due are
    /// resolved.
    // Apart, since most commands write a sign that is resolved by itself, which needs less.
    #[inline(never)]
    fn redraw_rows<N: Noter, L: Ledger>(
        &mut self,
        strokes: &[Stroke],
        before: &Edges,
        after: &Edges,
        marks: &mut Marks,
        noter: &mut N,
        steps: &mut Steps<L>,
    )
        requires none { marks.old ≡ no_marks }
        requires may { MayBeRedrawn strokes.now before.now after.now self.old }
        ensures redrawn { IsRedrawn strokes.now after.now self.old self.new marks.new }
        ensures noted { IsNotedAlong strokes.now (N.noted noter.old) self.old.page (N.noted noter.new)
            self.new.page }
        ensures rows { AreRowsRedrawn strokes.now before.now after.now self.old self.new marks.new steps.old
            steps.new }
    {
        let rows = follow_rows(strokes);
        let altered = draw_altering(strokes, &rows, before, &mut self.page, after, noter);
        if one_moved(&rows) {
            self.move_rows(&rows, &altered, after, marks, steps);
        } else {
            self.refresh_rows(&altered, after, marks, steps);
        }
        self.names.forget_rows(&altered, &rows, marks);
    }

    /// The same of strokes that all define something, where nothing is marked yet: the rows that name
    /// it are resolved, or the places of such a row. The page has these edges.
    #[inline(never)]
    fn redraw_defined<N: Noter, L: Ledger>(
        &mut self,
        strokes: &[Stroke],
        edges: &Edges,
        marks: &mut Marks,
        noter: &mut N,
        steps: &mut Steps<L>,
    )
        requires none { marks.old ≡ no_marks }
        requires may { MayBeRedrawn strokes.now edges.now edges.now self.old }
        requires define { one_else strokes.now ≡ false }
        ensures done { IsRedrawnAlong strokes.now edges.now edges.now self.old self.new marks.new steps.old
            steps.new (N.noted noter.old) (N.noted noter.new) }
        ensures known { AreAllKnown self.new.names }
    {
        self.names.find(&self.page, &self.looks);
        let redefined = rows_redefined(&self.page, strokes, &self.looks, &self.names);
        self.page.draw_all(strokes, noter);
        self.refresh_redefined(strokes, &redefined, edges, marks, steps);
    }

    /// Resolves a row from a column on, to whose left it looks as it did, and the rows below it that
    /// are covered otherwise than before. To the right of another column it looks so already where
    /// nothing covers it otherwise. Forgets what the row names, and each row in which a place is marked.
    #[inline(never)]
    fn refresh_put<L: Ledger>(
        &mut self,
        row: u8,
        from: u8,
        until: u8,
        edges: &Edges,
        marks: &mut Marks,
        steps: &mut Steps<L>,
    )
        requires { MayBeRefreshedDown row from until self.old edges.now marks.old }
        ensures page { self.new.page ≡ self.old.page }
        ensures refreshed { IsRefreshedOn (just_row row) at_rest self.old.looks edges.now self.new marks.new
            steps.old steps.new }
        ensures remembered { AreJustRemembered self.old.names self.new.names
            (λ r. (r ≢ row) × IsUnmarkedBelow marks.new 960 r) }
    {
        self.refresh_down(row, from, until, edges, marks, steps);
        self.names.forget_marked(Row::numbered(row), marks);
    }

    /// Resolves one cell by itself: where all other places have the looks that are kept, so has this.
    fn refresh_place<L: Ledger>(&mut self, place: Pos, marks: &mut Marks, steps: &mut Steps<L>)
        requires none { marks.old ≡ no_marks }
        requires valid { IsValidPage self.old.page }
        requires alone { StandsAlone self.old.page place.row }
        ensures page { self.new.page ≡ self.old.page }
        ensures kept { (k : Core) → OthersStay self.old.looks (core_on k self.old.page) place
            → self.new.looks ≡ looks_of (core_on k self.old.page) }
        ensures marks { marks.new ≡ differences self.old.looks self.new.looks }
        ensures remembered { AreJustRemembered self.old.names self.new.names (λ r. r ≢ place.row) }
        ensures cost { steps.new ≡ steps.old + 1 }
        ensures on_screen { OnScreen place.row place.column }
    {
        self.looks.whole_by_type();
        marks.places_by_type();
        self.names.forget(place.in_row());
        let source = row_source(&self.page, place.in_row());
        if self.looks.resolve_alone(place, &source, steps) {
            marks.mark(place);
        }
    }
}

/// Draws the strokes on a page, and answers for each row from the top whether they alter it. The page has
/// these edges before and those after; the rows are followed.
// Attributes are compared only where a stroke may set some.
fn draw_altering<N: Noter>(
    strokes: &[Stroke],
    rows: &[Followed; 24],
    before: &Edges,
    page: &mut Page,
    after: &Edges,
    noter: &mut N,
) -> [bool; 24]
    requires each { AllByRecursion IsValidStroke strokes.now }
    requires rows { rows.now ≡ list_by_index 1 24 (followed strokes.now) }
    requires valid { IsValidPage (page_after page.old strokes.now) }
    ensures drawn { page.new ≡ page_after page.old strokes.now }
    ensures unwound { page_behind (N.noted noter.new) page.new ≡ page_behind (N.noted noter.old) page.old }
    ensures noted { N.noted noter.new ≡ option_map (with_strokes page.old strokes.now) (N.noted noter.old) }
    ensures altered { result ≡ list_by_index 1 24
        (is_altered strokes.now (pens_of page.old) before.now (pens_of page.new) after.now) }
{
    if before.is_same(after) && !one_does_more(strokes) {
        page.draw_all(strokes, noter);
        return rows_written(rows);
    }
    let was = page.pens();
    page.draw_all(strokes, noter);
    rows_altered(strokes, rows, &was, before, page, after)
}

/// The last column of a row in which a cell may look otherwise by itself, where one is put in this column,
/// among signs or not.
fn last_otherwise(column: u8, among: bool) -> u8
    ensures { result ≡ (if among then column else 41) }
{
    if among { column } else { 41 }
}
