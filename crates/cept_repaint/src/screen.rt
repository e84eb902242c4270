ghost use Rattle.std.specs.Prelude.{◌≡◌, ◌≤◌, ◌<◌, ◌+◌, ℕ, [], true, false};
ghost use Rattle.std.specs.Prelude.{IfOk, IfSome, option_map};
ghost use Rattle.cept_codes.specs.Attribute.{IsEntry, IsRowPen, IsScreenPen};
ghost use Rattle.cept_codes.specs.Cell.{IsValidCell};
ghost use Rattle.cept_codes.specs.Command.{IsValidCommand};
ghost use Rattle.cept_codes.specs.Look.{IsValidLook, IsValidPattern, blank_look};
ghost use Rattle.cept_codes.specs.Stroke.{IsPaintOf};
ghost use Rattle.cept_profile.specs.Changes.{look_at};
ghost use Rattle.cept_profile.specs.Look.{looks_of, part_of, parts_of};
ghost use Rattle.cept_profile.specs.NotedStrokes.{with_command};
ghost use Rattle.cept_profile.specs.OldValues.{no_old_values, unwound, with_control};
ghost use Rattle.cept_profile.specs.PageParts.{dclut_in, paint_in, pattern_in, row_pen_in};
ghost use Rattle.cept_profile.specs.RowsFromAbove.{looks_in};
ghost use Rattle.cept_profile.specs.State.{Page as PageState, core_of, state, state_after};
ghost use Rattle.cept_profile.specs.Strokes.{strokes_of};
ghost use Rattle.cept_profile.specs.Tiling.{column_entry, part_at};
ghost use Rattle.cept_profile.specs.Valid.{IsValidState};
ghost use Rattle.cept_delta.specs.Exchanged.{HasSameLocations, exchanged};
ghost use Rattle.cept_page.specs.Parts.{cell_at};
ghost use Rattle.cept_redraw.specs.Marks.{no_marks};
ghost use Rattle.cept_redraw.specs.Picture.{IsNotedAlong};
ghost use Rattle.cept_redraw.specs.Renewed.{rows_renewed};
ghost use Rattle.cept_repaint.specs.Applied.{GoesOn, IsApplied, IsRepainted, IsWritten};
ghost use Rattle.cept_repaint.specs.inside.Applied.{IsPutBack, IsWrittenAlong};
ghost use Rattle.cept_repaint.specs.Applied.{rows_restored};
ghost use Rattle.cept_repaint.specs.Kept.{state_of_parts};
ghost use Rattle.cept_repaint.specs.inside.MovedEdges.{may_move_edges};
ghost use Rattle.cept_repaint.specs.inside.StateBehind.{state_behind};

use crate::glass::Glass;
use crate::moved_edges::may_move_edges;
use crate::painting::paint_marked;
use arrayvec::ArrayVec;
use cept_codes::{Cell, Command, Look, NoMemory, Paint, Pattern, Pen, Pos, Row, Stroke};
use cept_control::Control;
use cept_delta::{Delta, NoNotes, Noter};
use cept_outside::Steps;
use cept_redraw::{Marks, Picture};
use cept_rows::RowLooks;
use std::alloc::Global;
use std::marker::Model;
use std::sync::ledger::Ledger;

/// A decoder's screen: its page with the looks that are kept of it, and its control. Beside these there
/// is room for the strokes of a command.
#[derive(Drop)]
pub struct Screen {
    picture: Picture,
    control: Control,
    strokes: ArrayVec<Stroke, 128>,
}

impl Model for Screen {
    ghost use Rattle.cept_profile.specs.State.{State};
    ghost use Rattle.cept_repaint.specs.Kept.{IsKept};

    ghost Value = { State };

    ghost view = { λ s. record { page = s.picture.page; control = s.control } };

    ghost invariant = { λ s. IsKept (record { page = s.picture.page; control = s.control }) s.picture.looks
        s.picture.names };
}

/// Whether two controls have the same settings of the page.
fn has_settings_of(a: &Control, b: &Control) -> bool
    ensures same { result ≡ true → (p : PageState) → core_of (state_of_parts p a.now)
        ≡ core_of (state_of_parts p b.now) }
    ensures other { result ≡ false → (p : PageState) → core_of (state_of_parts p a.now)
        ≡ core_of (state_of_parts p b.now) → ⊥ }
{
    a.rows() == b.rows()
        && a.wrap() == b.wrap()
        && a.area() == b.area()
        && a.implicit() == b.implicit()
        && a.revision() == b.revision()
}

impl Screen {
    /// The screen at the start.
    pub fn new(alloc: Global) -> Result<Screen, NoMemory>
        ensures { IfOk result (λ screen. screen ≡ state []) }
    {
        let picture = Picture::new(alloc)?;
        Ok(Screen {
            picture,
            control: Control::new(),
            strokes: ArrayVec::new(),
        })
    }

    /// Applies a command: makes its strokes, marks exactly the places whose look changes, and
    /// paints each of them once, in reading order, with its new look. Takes no memory.
    pub fn apply<G: Glass, L: Ledger>(
        &mut self,
        command: Command,
        glass: &mut G,
        marks: &mut Marks,
        steps: &mut Steps<L>,
    )
        requires { IsValidCommand command }
        ensures applied { IsApplied self.old command self.new marks.new (G.state glass.old)
            (G.state glass.new) steps.old steps.new }
    {
        self.apply_from(&command, glass, marks, steps);
    }

    /// The same of a command where it stands, which saves its copy.
    #[inline(always)]
    pub fn apply_from<G: Glass, L: Ledger>(
        &mut self,
        command: &Command,
        glass: &mut G,
        marks: &mut Marks,
        steps: &mut Steps<L>,
    )
        requires { IsValidCommand command.now }
        ensures applied { IsApplied self.old command.now self.new marks.new (G.state glass.old)
            (G.state glass.new) steps.old steps.new }
    {
        self.apply_with(command, glass, marks, &mut NoNotes, steps);
    }

    /// The same of a screen that nobody sees, without a glass.
    pub fn apply_unseen<L: Ledger>(
        &mut self,
        command: &Command,
        marks: &mut Marks,
        steps: &mut Steps<L>,
    )
        requires { IsValidCommand command.now }
        ensures goes_on { GoesOn self.old command.now self.new }
        ensures written { IsWritten self.old command.now self.new marks.new steps.old steps.new }
    {
        if self.write_attribute(command, marks) {
            return;
        }
        self.write(command, marks, &mut NoNotes, steps);
    }

    /// Applies a command in the same way, and notes in a delta the old value of each location that
    /// its strokes may change, and the old control, unless one is noted already, and no other: the
    /// state to which the delta unwinds stays.
    pub fn apply_noting<G: Glass, L: Ledger>(
        &mut self,
        command: Command,
        glass: &mut G,
        marks: &mut Marks,
        delta: &mut Delta,
        steps: &mut Steps<L>,
    )
        requires { IsValidCommand command }
        ensures applied { IsApplied self.old command self.new marks.new (G.state glass.old)
            (G.state glass.new) steps.old steps.new }
        ensures unwound { unwound self.new delta.new ≡ unwound self.old delta.old }
        ensures noted { delta.new ≡ with_command self.old command delta.old }
    {
        self.apply_with(&command, glass, marks, delta, steps);
    }

    /// Applies a command, of which a noter takes note.
    #[inline(always)]
    fn apply_with<G: Glass, N: Noter, L: Ledger>(
        &mut self,
        command: &Command,
        glass: &mut G,
        marks: &mut Marks,
        noter: &mut N,
        steps: &mut Steps<L>,
    )
        requires { IsValidCommand command.now }
        ensures applied { IsApplied self.old command.now self.new marks.new (G.state glass.old)
            (G.state glass.new) steps.old steps.new }
        ensures unwound { state_behind (N.noted noter.new) self.new
            ≡ state_behind (N.noted noter.old) self.old }
        ensures noted { N.noted noter.new
            ≡ option_map (with_command self.old command.now) (N.noted noter.old) }
    {
        noter.note_control(&self.control);
        if self.write_attribute(command, marks) {
            return;
        }
        self.write_and_paint(command, glass, marks, noter, steps);
    }

    /// Takes a command that sets an attribute for the signs after it, if it is known as one: no
    /// look changes. Else all stays as it is.
    #[inline(always)]
    fn write_attribute(&mut self, command: &Command, marks: &mut Marks) -> bool
        requires { IsValidCommand command.now }
        ensures after { result ≡ true → self.new ≡ state_after self.old command.now }
        ensures strokes { result ≡ true → strokes_of self.old.control command.now ≡ [] }
        ensures looks { looks_of (core_of self.new) ≡ looks_of (core_of self.old) }
        ensures marks { result ≡ true → marks.new ≡ no_marks }
        ensures page { self.new.page ≡ self.old.page }
        ensures left { result ≡ false → self.new ≡ self.old }
    {
        if !self.control.step_attribute(command) {
            return false;
        }
        marks.clear();
        true
    }

    /// Applies any command.
    // Apart, since most commands are attributes, which need less.
    #[inline(never)]
    fn write_and_paint<G: Glass, N: Noter, L: Ledger>(
        &mut self,
        command: &Command,
        glass: &mut G,
        marks: &mut Marks,
        noter: &mut N,
        steps: &mut Steps<L>,
    )
        requires { IsValidCommand command.now }
        ensures applied { IsApplied self.old command.now self.new marks.new (G.state glass.old)
            (G.state glass.new) steps.old steps.new }
        ensures noted { IsNotedAlong (strokes_of self.old.control command.now) (N.noted noter.old) self.old.page
            (N.noted noter.new) self.new.page }
    {
        self.write(command, marks, noter, steps);
        paint_marked(self, glass, marks);
    }

    /// Makes the strokes of a command, and marks the places whose look changes.
    fn write<N: Noter, L: Ledger>(
        &mut self,
        command: &Command,
        marks: &mut Marks,
        noter: &mut N,
        steps: &mut Steps<L>,
    )
        requires { IsValidCommand command.now }
        ensures { IsWrittenAlong self.old command.now self.new marks.new steps.old steps.new (N.noted noter.old)
            (N.noted noter.new) }
    {
        match self.control.step_sign(command) {
            Some(put) => self
                .picture
                .redraw_put(&put, &self.control, marks, noter, steps),
            None => self.write_strokes(command, marks, noter, steps),
        }
    }

    /// The same of any command, with its strokes in a list.
    fn write_strokes<N: Noter, L: Ledger>(
        &mut self,
        command: &Command,
        marks: &mut Marks,
        noter: &mut N,
        steps: &mut Steps<L>,
    )
        requires { IsValidCommand command.now }
        ensures { IsWrittenAlong self.old command.now self.new marks.new steps.old steps.new (N.noted noter.old)
            (N.noted noter.new) }
    {
        if may_move_edges(command) {
            self.write_edges(command, marks, noter, steps);
            return;
        }
        self.control.step_into(command, &mut self.strokes);
        let strokes = self.strokes.as_slice();
        self.picture
            .redraw_within(strokes, &self.control, marks, noter, steps);
    }

    /// The same of any command.
    // Apart, since few commands change which rows are last, and all others need less.
    #[inline(never)]
    fn write_edges<N: Noter, L: Ledger>(
        &mut self,
        command: &Command,
        marks: &mut Marks,
        noter: &mut N,
        steps: &mut Steps<L>,
    )
        requires { IsValidCommand command.now }
        ensures { IsWrittenAlong self.old command.now self.new marks.new steps.old steps.new (N.noted noter.old)
            (N.noted noter.new) }
    {
        let before = self.control.edges();
        self.control.step_into(command, &mut self.strokes);
        let after = self.control.edges();
        let strokes = self.strokes.as_slice();
        self.picture
            .redraw(strokes, &before, &after, marks, noter, steps);
    }

    /// The look at a place. It shows the part that the tiling by sizes has there.
    pub fn look(&self, at: Pos) -> Look
        ensures look { result ≡ look_at (looks_of (core_of self.now)) at }
        ensures part { part_of result ≡ part_at (parts_of (core_of self.now)) at.row at.column }
        ensures valid { IsValidLook result }
    {
        self.picture.looks.get(at)
    }

    /// The looks of a row, where they stand. Each shows the part that the tiling by sizes has there.
    pub fn row_looks(&self, row: u8) -> &RowLooks
        requires from_top { 1 ≤ row }
        requires to_bottom { row ≤ 24 }
        ensures looks { result.now ≡ looks_in (looks_of (core_of self.now)) row }
        ensures parts { (c : ℕ) → 1 ≤ c → c ≤ 40
            → part_of (column_entry blank_look result.now c)
            ≡ part_at (parts_of (core_of self.now)) row c }
    {
        self.picture.looks.row(Row::numbered(row))
    }

    /// The cell at a place.
    pub fn cell(&self, at: Pos) -> Cell
        ensures cell { result ≡ cell_at self.now.page at }
        ensures valid { IsValidCell result }
    {
        self.picture.page.cell(at)
    }

    /// The attributes of a row.
    pub fn row_pen(&self, row: u8) -> Pen
        requires from_top { 1 ≤ row }
        requires to_bottom { row ≤ 24 }
        ensures pen { result ≡ row_pen_in self.now.page.row_pens row }
        ensures valid { IsRowPen result }
    {
        *self.picture.page.row_pen(Row::numbered(row))
    }

    /// The attributes of the screen.
    pub fn screen_pen(&self) -> Pen
        ensures pen { result ≡ self.now.page.screen_pen }
        ensures valid { IsScreenPen result }
    {
        *self.picture.page.screen_pen()
    }

    /// The paint of a colour entry, 0 to 31.
    pub fn colour(&self, i: u8) -> Paint
        requires { i < 32 }
        ensures paint { result ≡ paint_in self.now.page.paints i }
        ensures valid { IsPaintOf i result }
    {
        self.picture.page.colours().paint(i)
    }

    /// The colour entry that an entry of the DCLUT, 0 to 3, names.
    pub fn dclut(&self, i: u8) -> u8
        requires { i < 4 }
        ensures entry { result ≡ dclut_in self.now.page.dclut i }
        ensures valid { IsEntry result }
    {
        self.picture.page.colours().dclut(i)
    }

    /// The pattern of a code of the downloaded set, 2/1 to 7/14, `None` where none is defined.
    pub fn pattern(&self, code: u8) -> Option<Pattern>
        requires from_first { 0x21 ≤ code }
        requires to_last { code ≤ 0x7E }
        ensures pattern { result ≡ pattern_in self.now.page.patterns code }
        ensures valid { IfSome result IsValidPattern }
    {
        self.picture.page.patterns().get(code)
    }

    /// The state beside the page, where it stands: the position, the sets, the pen and the modes.
    pub fn control(&self) -> &Control
        ensures control { result.now ≡ self.now.control }
        ensures valid { IsValidState self.now }
    {
        &self.control
    }

    /// Has a delta forget all old values and note the control: the state unwinds to itself by it.
    pub fn begin_notes(&self, delta: &mut Delta)
        ensures values { delta.new ≡ with_control self.now.control no_old_values }
        ensures unwound { unwound self.now delta.new ≡ self.now }
        ensures valid { IsValidState self.now }
    {
        delta.restart(self.control());
    }

    /// Takes another control in place of its own, if its settings are those of the page: the same
    /// rows, wrap, area, scrolling and revision. No look changes, and nothing is painted. Answers
    /// whether they are; else all stays.
    pub fn take_control(&mut self, control: &Control) -> bool
        ensures taken { result ≡ true → self.new ≡ state_of_parts self.old.page control.now }
        ensures cause { result ≡ false → core_of (state_of_parts self.old.page control.now)
            ≡ core_of self.old → ⊥ }
        ensures stays { result ≡ false → self.new ≡ self.old }
    {
        control.known();
        let same = has_settings_of(control, &self.control);
        if same {
            self.control = *control;
        }
        same
    }

    /// How many rows the page has, 24 or 20.
    pub fn rows(&self) -> u8
        ensures rows { result ≡ self.now.control.rows }
        ensures valid { IsValidState self.now }
    {
        self.control.rows()
    }

    /// Whether positions go on over the ends of rows and of the page.
    pub fn wrap(&self) -> bool
        ensures wrap { result ≡ self.now.control.wrap }
    {
        self.control.wrap()
    }

    /// The first and the last row of the scrolling area, `None` where there is no area.
    pub fn area(&self) -> Option<(u8, u8)>
        ensures area { result ≡ self.now.control.area }
        ensures valid { IsValidState self.now }
    {
        self.control.area()
    }

    /// Whether moving past the ends of the area scrolls it.
    pub fn implicit(&self) -> bool
        ensures implicit { result ≡ self.now.control.implicit }
    {
        self.control.implicit()
    }

    /// The revision of the rules, 1 or 2.
    pub fn revision(&self) -> u8
        ensures revision { result ≡ self.now.control.revision }
        ensures valid { IsValidState self.now }
    {
        self.control.revision()
    }

    /// Puts the old values of a delta back, control included: marks exactly the places whose look
    /// changes, and paints each of them once, in reading order, with its new look. Takes no memory.
    pub fn restore<G: Glass, L: Ledger>(
        &mut self,
        delta: &Delta,
        glass: &mut G,
        marks: &mut Marks,
        steps: &mut Steps<L>,
    )
        requires { IsValidState (unwound self.old delta.now) }
        ensures state { self.new ≡ unwound self.old delta.now }
        ensures repainted { IsRepainted self.old self.new marks.new (G.state glass.old)
            (G.state glass.new) }
        ensures cost { steps.new
            ≤ steps.old + rows_restored delta.now (core_of self.old) (core_of self.new) }
        ensures least { steps.old
            + rows_renewed [] (looks_of (core_of self.old)) (looks_of (core_of self.new)) ≤ steps.new }
        ensures at_most_24 { steps.new ≤ steps.old + 24 }
    {
        self.unwind(delta, marks, steps);
        paint_marked(self, glass, marks);
    }

    /// Puts the old values back, and marks the places whose look changes.
    fn unwind<L: Ledger>(&mut self, delta: &Delta, marks: &mut Marks, steps: &mut Steps<L>)
        requires { IsValidState (unwound self.old delta.now) }
        ensures { IsPutBack delta.now self.old self.new marks.new steps.old steps.new }
    {
        let before = self.control.edges();
        self.control = delta.old_control().unwrap_or(self.control);
        let after = self.control.edges();
        self.picture.unwind(delta, &before, &after, marks, steps);
    }
    /// Puts the old values of a delta back as `restore` does, and notes in their places in the delta
    /// the values that stood there: at the same locations the delta then unwinds the new state to
    /// the old one.
    pub fn exchange<G: Glass, L: Ledger>(
        &mut self,
        delta: &mut Delta,
        glass: &mut G,
        marks: &mut Marks,
        steps: &mut Steps<L>,
    )
        requires { IsValidState (unwound self.old delta.old) }
        ensures state { self.new ≡ unwound self.old delta.old }
        ensures exchanged { delta.new ≡ exchanged self.old delta.old }
        ensures unwound { unwound self.new delta.new ≡ self.old }
        ensures again { exchanged self.new delta.new ≡ delta.old }
        ensures was_valid { IsValidState self.old }
        ensures locations { HasSameLocations delta.old delta.new }
        ensures repainted { IsRepainted self.old self.new marks.new (G.state glass.old)
            (G.state glass.new) }
        ensures cost { steps.new
            ≤ steps.old + rows_restored delta.old (core_of self.old) (core_of self.new) }
        ensures least { steps.old
            + rows_renewed [] (looks_of (core_of self.old)) (looks_of (core_of self.new)) ≤ steps.new }
        ensures at_most_24 { steps.new ≤ steps.old + 24 }
    {
        delta.places_by_type();
        self.exchange_values(delta, marks, steps);
        paint_marked(self, glass, marks);
    }

    /// Exchanges the old values with those of the screen, and marks the places whose look changes.
    fn exchange_values<L: Ledger>(
        &mut self,
        delta: &mut Delta,
        marks: &mut Marks,
        steps: &mut Steps<L>,
    )
        requires { IsValidState (unwound self.old delta.old) }
        ensures back { IsPutBack delta.old self.old self.new marks.new steps.old steps.new }
        ensures exchanged { delta.new ≡ exchanged self.old delta.old }
        ensures was_valid { IsValidState self.old }
    {
        let before = self.control.edges();
        delta.exchange_control(&mut self.control);
        let after = self.control.edges();
        self.picture.exchange(delta, &before, &after, marks, steps);
    }
}
