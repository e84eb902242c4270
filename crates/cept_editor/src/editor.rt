//! A screen whose edits are made line by line, and can be undone and redone.

ghost use Rattle.std.specs.Prelude.{◌≡◌, ◌≢◌, ◌+◌, ◌*◌, ◌<◌, ◌≤◌, ◌↔◌, [], false, length};
ghost use Rattle.std.specs.Prelude.{Ok, OnErr, IfOk, slice_index_or};
ghost use Rattle.std.specs.List.{AllByRecursion};
ghost use Rattle.cept_codes.specs.Command.{IsValidCommand};
ghost use Rattle.cept_profile.specs.Changes.{changes_between, differences};
ghost use Rattle.cept_profile.specs.Look.{looks_of};
ghost use Rattle.cept_profile.specs.State.{core_of, state};
ghost use Rattle.cept_redraw.specs.Renewed.{rows_renewed};
ghost use Rattle.cept_repaint.specs.Applied.{IsApplied};
ghost use Rattle.cept_undo.specs.Past.{IsWithinEdit, StaysBegun, future};
ghost use Rattle.cept_undo.specs.UndoRedo.{PaintsUndoRedo};
ghost use Rattle.cept_editor.specs.Applying.{HasMade, MarksLast, MarksStep};
ghost use Rattle.cept_editor.specs.inside.Applying.{AppliesOne, AppliesAll};
ghost use Rattle.cept_editor.specs.Applying.{PutsListed, ResolvesRenewed, ResolvesStep};
ghost use Rattle.cept_editor.specs.inside.Applying.{HoldsSame};
ghost use Rattle.cept_editor.specs.Applying.{editor_after_undo_redo, rows_of_step};
ghost use Rattle.cept_repaint.specs.InTurn.{rows_in_reach_of_all};
ghost use Rattle.cept_editor.specs.Kept.{none_kept, StandsAfter};
ghost use Rattle.cept_editor.specs.Made.{output_of};
ghost use Rattle.cept_editor.specs.Meaning.{Edit as EditOf, UndoRedo as UndoRedoOf, command_count};
ghost use Rattle.cept_editor.specs.Script.{EditLine};
ghost use Rattle.cept_editor.specs.Stepping.{GoesOn, states_ahead};

use crate::commands::{Commands, Edit};
use crate::script::Script;
use crate::undo_redo::UndoRedo;
use cept_codes::{Command, NoMemory};
use cept_outside::{Sink, Steps, WriteFault};
use cept_repaint::{Glass, Marks, Screen};
use cept_report::put_changes_if;
use cept_undo::{Redone, Undo, Undone};
use std::alloc::Global;
use std::marker::Model;
use std::sync::ledger::Ledger;

/// Whether an edit line was made.
#[derive(Clone, Copy, PartialEq, Eq, Debug)]
pub enum Done {
    /// It was made.
    Done,
    /// It was an undo, and no edit was kept; or a redo, and no edit was undone.
    Nothing,
}

/// What is listed of an edit line: the places that its last command changed, where their lines are
/// put, if they are, and the number that begins them.
#[derive(Drop)]
struct Listing<'a, T: Sink> {
    marks: &'a mut Marks,
    sink: &'a mut T,
    line: u32,
    listed: bool,
}

/// Applies a command of the edit that is begun, paints what it changes, and then puts its lines
/// where they are listed.
fn apply_command<G: Glass, T: Sink, L: Ledger>(
    undo: &mut Undo,
    screen: &mut Screen,
    command: Command,
    glass: &mut G,
    steps: &mut Steps<L>,
    listing: &mut Listing<'_, T>,
) -> Result<(), WriteFault>
    requires within { IsWithinEdit undo.old screen.old }
    requires valid { IsValidCommand command }
    ensures edit { StaysBegun undo.old screen.old undo.new screen.new }
    ensures applies { AppliesOne listing.old.listed listing.old.line command screen.old
        (output_of (T.state listing.old.sink.now) (G.state glass.old)) result screen.new
        (output_of (T.state listing.new.sink.now) (G.state glass.new)) listing.new.marks.now
        steps.old steps.new }
    ensures puts { PutsListed listing.old.listed (T.state listing.old.sink.now) result
        (T.state listing.new.sink.now) }
    ensures shown { OnErr result
        (changes_between (looks_of (core_of screen.old)) (looks_of (core_of screen.new)) ≢ []) }
    ensures line { listing.new.line ≡ listing.old.line }
    ensures listed { listing.new.listed ≡ listing.old.listed }
    ensures borrows { HoldsSame listing.old.sink.ghost_name listing.old.marks.ghost_name
        listing.new.sink.ghost_name listing.new.marks.ghost_name }
{
    undo.apply(screen, command, glass, listing.marks, steps);
    let label = u64::from(listing.line);
    put_changes_if(listing.listed, listing.sink, label, listing.marks, screen)
}

/// Applies the commands of the edit that is begun one after the other, up to the first one whose
/// lines aren't all put.
fn apply_commands<G: Glass, T: Sink, L: Ledger>(
    undo: &mut Undo,
    screen: &mut Screen,
    mut commands: Commands<'_>,
    glass: &mut G,
    steps: &mut Steps<L>,
    listing: &mut Listing<'_, T>,
) -> Result<(), WriteFault>
    requires within { IsWithinEdit undo.old screen.old }
    requires none_undone { future undo.old screen.old ≡ [] }
    ensures edit { StaysBegun undo.old screen.old undo.new screen.new }
    ensures applies { AppliesAll listing.old.listed listing.old.line commands.entry screen.old
        (output_of (T.state listing.old.sink.now) (G.state glass.old)) result screen.new
        (output_of (T.state listing.new.sink.now) (G.state glass.new)) }
    ensures puts { PutsListed listing.old.listed (T.state listing.old.sink.now) result
        (T.state listing.new.sink.now) }
    ensures marks { 0 < length commands.entry
        → MarksLast commands.entry screen.old result screen.new listing.new.marks.now }
    ensures cost { steps.new ≤ steps.old + rows_in_reach_of_all screen.old commands.entry }
    ensures least { ResolvesRenewed commands.entry screen.old result screen.new steps.old steps.new }
    ensures at_most_24 { steps.new ≤ steps.old + 24 * length commands.entry }
    ensures borrows { HoldsSame listing.old.sink.ghost_name listing.old.marks.ghost_name
        listing.new.sink.ghost_name listing.new.marks.ghost_name }
{
    while let Some(command) = commands.next() {
        apply_command(undo, screen, command, glass, steps, listing)?;
    }
    Ok(())
}

/// A screen, and the last edits of it, of which up to 64 can be undone and then redone. The
/// commands of a page can't.
#[derive(Drop)]
pub struct Editor {
    screen: Screen,
    undo: Undo,
}

impl Model for Editor {
    ghost use Rattle.cept_undo.specs.Past.{IsBetweenEdits, past, future};
    ghost use Rattle.cept_editor.specs.Kept.{EditorState};

    ghost Value = { EditorState };

    ghost view = { λ e. record {
      screen = e.screen;
      past = past e.undo e.screen;
      future = future e.undo e.screen;
    } };

    // Between two calls no edit is begun.
    ghost invariant = { λ e. IsBetweenEdits e.undo e.screen };
}

impl Editor {
    /// The screen is at its start, no edit is kept, and none is undone.
    pub fn new(alloc: Global) -> Result<Editor, NoMemory>
        ensures start { IfOk result (λ editor. editor
            ≡ record { screen = state []; past = []; future = [] }) }
        ensures stands { IfOk result (λ editor. StandsAfter editor [] none_kept) }
    {
        Ok(Editor {
            screen: Screen::new(alloc)?,
            undo: Undo::new(alloc)?,
        })
    }

    /// Applies a command of a page: marks exactly the places whose look changes, and paints each of
    /// them once, in reading order, with its new look. It is no edit: before the first edit no undo
    /// reaches it. After it no edit is undone. Takes no memory.
    pub fn page<G: Glass, L: Ledger>(
        &mut self,
        command: &Command,
        glass: &mut G,
        marks: &mut Marks,
        steps: &mut Steps<L>,
    )
        requires { IsValidCommand command.now }
        ensures past { self.new.past ≡ self.old.past }
        ensures future { self.new.future ≡ [] }
        ensures applied { IsApplied self.old.screen command.now self.new.screen marks.new
            (G.state glass.old) (G.state glass.new) steps.old steps.new }
    {
        self.undo
            .apply_outside(&mut self.screen, command, glass, marks, steps);
    }

    /// Makes edit k of a script, counted from 0. The commands of an edit are applied one after the
    /// other, each is painted, and then its change lines are put, where `listed` holds. The edit is
    /// kept, where 64 are kept the oldest is dropped, and none stays undone. An undo undoes the
    /// last kept edit in one step, paints what changes, and then puts its change lines where `listed`
    /// holds; where no edit is kept nothing happens. A redo redoes the last undone edit in the same
    /// way; where none is undone nothing happens. Takes no memory.
    ///
    /// # Errors
    ///
    /// `WriteFault` where the sink fails. A part of the change lines was put. The commands up to the
    /// first one whose lines weren't all put are applied, and kept as an edit; an undo or a redo was
    /// made.
    pub fn line<G: Glass, T: Sink, L: Ledger>(
        &mut self,
        script: &Script,
        k: u32,
        glass: &mut G,
        marks: &mut Marks,
        sink: &mut T,
        listed: bool,
        steps: &mut Steps<L>,
    ) -> Result<Done, WriteFault>
        requires { k < length script.now }
        ensures goes_on { (default : EditLine) → let edit = slice_index_or script.now k default in
            GoesOn listed edit.line edit.step self.old
            (output_of (T.state sink.old) (G.state glass.old)) result self.new
            (output_of (T.state sink.new) (G.state glass.new)) }
        ensures made { (default : EditLine) → let edit = slice_index_or script.now k default in
            HasMade edit.step self.old result self.new }
        ensures puts { PutsListed listed (T.state sink.old) result (T.state sink.new) }
        ensures marks { (default : EditLine) → let edit = slice_index_or script.now k default in
            MarksStep edit.step self.old.screen result self.new.screen marks.new }
        ensures cost { (default : EditLine) → let edit = slice_index_or script.now k default in
            steps.new ≤ steps.old + rows_of_step self.old.screen edit.step }
        ensures least { (default : EditLine) → let edit = slice_index_or script.now k default in
            ResolvesStep edit.step self.old.screen result self.new.screen steps.old steps.new }
        ensures at_most_24 { (default : EditLine)
            → let edit = slice_index_or script.now k default in
            steps.new ≤ steps.old + 24 * command_count edit.step }
        ensures unticked { result ≡ Ok Done.Nothing → steps.new ≡ steps.old }
    {
        let mut listing = Listing {
            marks,
            sink,
            line: script.line_of(k),
            listed,
        };
        match script.edit(k) {
            Edit::UndoRedo(which) => self.undo_redo(which, glass, steps, &mut listing),
            Edit::Commands(commands) => self.edit(commands, glass, steps, &mut listing),
        }
    }

    /// Makes an edit of these commands, and keeps as much of it as was applied.
    fn edit<G: Glass, T: Sink, L: Ledger>(
        &mut self,
        commands: Commands<'_>,
        glass: &mut G,
        steps: &mut Steps<L>,
        listing: &mut Listing<'_, T>,
    ) -> Result<Done, WriteFault>
        requires some { 0 < length commands }
        requires valid { AllByRecursion IsValidCommand commands }
        ensures goes_on { GoesOn listing.old.listed listing.old.line (EditOf commands.entry) self.old
            (output_of (T.state listing.old.sink.now) (G.state glass.old)) result self.new
            (output_of (T.state listing.new.sink.now) (G.state glass.new)) }
        ensures made { HasMade (EditOf commands.entry) self.old result self.new }
        ensures puts { PutsListed listing.old.listed (T.state listing.old.sink.now) result
            (T.state listing.new.sink.now) }
        ensures marks { MarksLast commands.entry self.old.screen result self.new.screen
            listing.new.marks.now }
        ensures cost { steps.new
            ≤ steps.old + rows_in_reach_of_all self.old.screen commands.entry }
        ensures least { ResolvesRenewed commands.entry self.old.screen result self.new.screen
            steps.old steps.new }
        ensures at_most_24 { steps.new ≤ steps.old + 24 * length commands.entry }
        ensures done { result ≢ Ok Done.Nothing }
        ensures borrows { HoldsSame listing.old.sink.ghost_name listing.old.marks.ghost_name
            listing.new.sink.ghost_name listing.new.marks.ghost_name }
    {
        self.undo.begin(&self.screen);
        let applied = apply_commands(
            &mut self.undo,
            &mut self.screen,
            commands,
            glass,
            steps,
            listing,
        );
        self.undo.commit();
        applied?;
        Ok(Done::Done)
    }

    /// Undoes the last kept edit, or redoes the last undone one, on the screen. Answers whether there
    /// was one.
    fn undo_redo_screen<G: Glass, L: Ledger>(
        &mut self,
        which: UndoRedo,
        glass: &mut G,
        marks: &mut Marks,
        steps: &mut Steps<L>,
    ) -> bool
        ensures moved { self.new ≡ editor_after_undo_redo self.old which }
        ensures paints { PaintsUndoRedo self.old.screen self.new.screen marks.new (G.state glass.old)
            (G.state glass.new) steps.old steps.new }
        ensures nothing { (result ≡ false) ↔ (states_ahead self.old which ≡ []) }
        ensures unpainted { result ≡ false → glass.new ≡ glass.old }
        ensures unticked { result ≡ false → steps.new ≡ steps.old }
    {
        match which {
            UndoRedo::Undo => match self.undo.undo(&mut self.screen, glass, marks, steps) {
                Undone::Undone => true,
                Undone::Nothing => false,
            },
            UndoRedo::Redo => match self.undo.redo(&mut self.screen, glass, marks, steps) {
                Redone::Redone => true,
                Redone::Nothing => false,
            },
        }
    }

    /// Undoes the last kept edit, or redoes the last undone one, and puts its lines where they are
    /// listed.
    fn undo_redo<G: Glass, T: Sink, L: Ledger>(
        &mut self,
        which: UndoRedo,
        glass: &mut G,
        steps: &mut Steps<L>,
        listing: &mut Listing<'_, T>,
    ) -> Result<Done, WriteFault>
        ensures goes_on { GoesOn listing.old.listed listing.old.line (UndoRedoOf which) self.old
            (output_of (T.state listing.old.sink.now) (G.state glass.old)) result self.new
            (output_of (T.state listing.new.sink.now) (G.state glass.new)) }
        ensures made { HasMade (UndoRedoOf which) self.old result self.new }
        ensures puts { PutsListed listing.old.listed (T.state listing.old.sink.now) result
            (T.state listing.new.sink.now) }
        ensures marks { listing.new.marks.now ≡ differences (looks_of (core_of self.old.screen))
            (looks_of (core_of self.new.screen)) }
        ensures least { steps.old + rows_renewed [] (looks_of (core_of self.old.screen))
            (looks_of (core_of self.new.screen)) ≤ steps.new }
        ensures at_most_24 { steps.new ≤ steps.old + 24 }
        ensures unticked { result ≡ Ok Done.Nothing → steps.new ≡ steps.old }
        ensures borrows { HoldsSame listing.old.sink.ghost_name listing.old.marks.ghost_name
            listing.new.sink.ghost_name listing.new.marks.ghost_name }
    {
        if !self.undo_redo_screen(which, glass, listing.marks, steps) {
            return Ok(Done::Nothing);
        }
        let label = u64::from(listing.line);
        put_changes_if(
            listing.listed,
            listing.sink,
            label,
            listing.marks,
            &self.screen,
        )?;
        Ok(Done::Done)
    }

    /// The screen.
    pub fn screen(&self) -> &Screen
        ensures { result.now ≡ self.now.screen }
    {
        &self.screen
    }

    /// How many edits can be undone, at most 64.
    pub fn kept(&self) -> u32
        ensures edits { result ≡ length self.now.past }
        ensures at_most_64 { result ≤ 64 }
    {
        self.undo.kept()
    }

    /// How many edits are undone and can be redone, at most 64.
    pub fn undone(&self) -> u32
        ensures edits { result ≡ length self.now.future }
        ensures at_most_64 { result ≤ 64 }
    {
        self.undo.undone()
    }
}
