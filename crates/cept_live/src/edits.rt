//! Makes edits on a screen, undoes and redoes them, and marks the places that they change.
ghost use Rattle.std.specs.Prelude.{◌≡◌, ℕ, List, [], IfOk, IfSome, OnErr, IsNone};
ghost use Rattle.cept_codes.specs.declared.look.Look.{Look};
ghost use Rattle.cept_editor.specs.Applying.{changes_in_turn, editor_after_step};
ghost use Rattle.cept_editor.specs.Meaning.{Edit as EditOf};
ghost use Rattle.cept_profile.specs.Changes.{changes_between, differences, marked_looks};
ghost use Rattle.cept_profile.specs.Look.{looks_of};
ghost use Rattle.cept_profile.specs.State.{core_of};
ghost use Rattle.cept_repaint.specs.InTurn.{state_after_all};
ghost use Rattle.cept_undo.specs.Past.{IsBetweenEdits, IsWithinEdit, StaysBegun, future, past};
ghost use Rattle.cept_live.specs.EditLines.{Counts};
ghost use Rattle.cept_live.specs.Editing.{future_of, past_of};
ghost use Rattle.cept_live.specs.inside.Editing.{HasMovedEdit, editor_with};
ghost use Rattle.cept_live.specs.Notices.{change_sayings};
ghost use Rattle.cept_live.specs.Renewed.{marked_with};

use cept_codes::NoMemory;
use cept_editor::{Commands, UndoRedo};
use cept_outside::Steps;
use cept_repaint::{GridGlass, Marks, Screen};
use cept_undo::{Redone, Undo, Undone};
use std::alloc::Global;
use std::sync::ledger::Ledger;

/// The last edits of a screen, as they are undone and redone. What they paint goes to a glass at which
/// nobody looks: what they change is marked.
#[derive(Drop)]
pub(crate) struct Editing {
    undo: Undo,
    glass: GridGlass,
}

/// Marks in `all` the places besides that are marked.
fn add_marks(marks: &Marks, all: &mut Marks)
    ensures { (at : ℕ) (g : List (List Look))
        → all.new ≡ marked_with all.old (change_sayings at (marked_looks marks.now g)) }
{
    let mut number = 0u16;
    while let Some(place) = marks.next_from(number) {
        all.mark(place);
        number = place.number() + 1;
    }
}

/// Applies the commands of the edit that is begun one after the other, and marks in `changed` the
/// places besides that each changes.
fn apply_commands<L: Ledger>(
    editing: &mut Editing,
    screen: &mut Screen,
    mut commands: Commands<'_>,
    marks: &mut Marks,
    changed: &mut Marks,
    steps: &mut Steps<L>,
)
    requires within { IsWithinEdit editing.old.undo screen.old }
    requires none_undone { future editing.old.undo screen.old ≡ [] }
    ensures edit { StaysBegun editing.old.undo screen.old editing.new.undo screen.new }
    ensures state { screen.new ≡ state_after_all screen.old commands.entry }
    ensures changed { changed.new ≡ marked_with changed.old
        (change_sayings 0 (changes_in_turn screen.old commands.entry)) }
{
    while let Some(command) = commands.next() {
        editing
            .undo
            .apply(screen, command, &mut editing.glass, marks, steps);
        add_marks(marks, changed);
    }
}

impl Editing {
    /// The edits of a screen that are there; at its first edit none is kept, and none is undone.
    pub(crate) fn of(
        edits: Option<Editing>,
        alloc: Global,
        screen: &Screen,
    ) -> Result<Editing, NoMemory>
        requires { IfSome edits (λ e. IsBetweenEdits e.undo screen.now) }
        ensures past { IfOk result (λ e. past e.undo screen.now ≡ past_of edits screen.now) }
        ensures future { IfOk result (λ e. future e.undo screen.now ≡ future_of edits screen.now) }
        ensures between { IfOk result (λ e. IsBetweenEdits e.undo screen.now) }
        ensures first { OnErr result (IsNone edits) }
    {
        // That the state is valid is known to the prover by its control.
        let _control = screen.control();
        match edits {
            Some(editing) => Ok(editing),
            None => Ok(Editing {
                undo: Undo::new(alloc)?,
                glass: GridGlass::new(alloc)?,
            }),
        }
    }

    /// Makes an edit of these commands, and keeps it. Marks in `changed` the places besides that they
    /// change.
    pub(crate) fn make<L: Ledger>(
        &mut self,
        screen: &mut Screen,
        commands: Commands<'_>,
        marks: &mut Marks,
        changed: &mut Marks,
        steps: &mut Steps<L>,
    )
        requires { IsBetweenEdits self.old.undo screen.old }
        ensures between { IsBetweenEdits self.new.undo screen.new }
        ensures made { editor_with self.new.undo screen.new
            ≡ editor_after_step (editor_with self.old.undo screen.old) (EditOf commands.entry) }
        ensures changed { changed.new ≡ marked_with changed.old
            (change_sayings 0 (changes_in_turn screen.old commands.entry)) }
    {
        self.undo.begin(screen);
        apply_commands(self, screen, commands, marks, changed, steps);
        self.undo.commit();
    }

    /// Undoes the last kept edit, or redoes the last undone one, and marks the places that look
    /// otherwise then. Answers whether there was one.
    fn undo_redo_screen<L: Ledger>(
        &mut self,
        screen: &mut Screen,
        which: UndoRedo,
        marks: &mut Marks,
        steps: &mut Steps<L>,
    ) -> bool
        requires { IsBetweenEdits self.old.undo screen.old }
        ensures moves { HasMovedEdit self.old.undo screen.old which result self.new.undo screen.new }
        ensures marks { marks.new
            ≡ differences (looks_of (core_of screen.old)) (looks_of (core_of screen.new)) }
    {
        match which {
            UndoRedo::Undo => match self.undo.undo(screen, &mut self.glass, marks, steps) {
                Undone::Undone => true,
                Undone::Nothing => false,
            },
            UndoRedo::Redo => match self.undo.redo(screen, &mut self.glass, marks, steps) {
                Redone::Redone => true,
                Redone::Nothing => false,
            },
        }
    }

    /// The same, and marks these places in `changed` besides.
    pub(crate) fn undo_redo<L: Ledger>(
        &mut self,
        screen: &mut Screen,
        which: UndoRedo,
        marks: &mut Marks,
        changed: &mut Marks,
        steps: &mut Steps<L>,
    ) -> bool
        requires { IsBetweenEdits self.old.undo screen.old }
        ensures moves { HasMovedEdit self.old.undo screen.old which result self.new.undo screen.new }
        ensures changed { changed.new ≡ marked_with changed.old (change_sayings 0
            (changes_between (looks_of (core_of screen.old)) (looks_of (core_of screen.new)))) }
    {
        let moved = self.undo_redo_screen(screen, which, marks, steps);
        add_marks(marks, changed);
        moved
    }

    /// How many edits can be undone.
    pub(crate) fn kept(&self, screen: &Screen) -> u32
        ensures { Counts result (past self.now.undo screen.now) }
    {
        self.undo.kept()
    }

    /// How many edits were undone and can be redone.
    pub(crate) fn undone(&self, screen: &Screen) -> u32
        ensures { Counts result (future self.now.undo screen.now) }
    {
        self.undo.undone()
    }
}
