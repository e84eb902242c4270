ghost use Rattle.std.specs.Prelude.{◌≡◌, ◌≤◌, ◌+◌, ◌↔◌, true, [], ◌∷◌, Some, IfOk, length, take};
ghost use Rattle.cept_codes.specs.Command.{IsValidCommand};
ghost use Rattle.cept_profile.specs.State.{State};
ghost use Rattle.cept_profile.specs.Valid.{IsValidState};
ghost use Rattle.cept_repaint.specs.Applied.{IsApplied};
ghost use Rattle.cept_undo.specs.Past.{FitsTogether, IsBegun, IsBetweenEdits, IsNotBegun, IsWithinEdit};
ghost use Rattle.cept_undo.specs.Outside.{IsAppliedOutside};
ghost use Rattle.cept_undo.specs.Past.{StaysBegun, at_begin, future, most_kept, past};
ghost use Rattle.cept_undo.specs.UndoRedo.{MovesEdit, PaintsUndoRedo, TouchesNothing};

use crate::rings::{give_back, move_edit, take_free};
use cept_codes::{Command, NoMemory};
use cept_outside::Steps;
use cept_repaint::{Delta, Glass, Marks, Screen};
use circular_buffer::HeapCircularBuffer;
use std::alloc::Global;
use std::marker::Model;
use std::sync::ledger::Ledger;

/// How many edits are kept at most.
const MOST_KEPT: usize = 64;

/// Whether an edit was undone, or none was kept.
#[derive(Clone, Copy, PartialEq, Eq, Debug)]
pub enum Undone {
    /// The latest kept edit was undone.
    Undone,
    /// No edit was kept.
    Nothing,
}

/// Whether an edit was redone, or none was undone.
#[derive(Clone, Copy, PartialEq, Eq, Debug)]
pub enum Redone {
    /// The edit that was undone last was redone.
    Redone,
    /// No edit was undone.
    Nothing,
}

/// The last 64 edits of a screen, those of them that were undone and may be redone, and the edit that
/// is begun, each by the values of what it changed: a kept edit by the old ones, an undone one by the
/// new ones. Room for all of them is made at the start.
#[derive(Drop)]
pub struct Undo {
    kept: HeapCircularBuffer<Delta>,
    undone: HeapCircularBuffer<Delta>,
    begun: Option<Delta>,
    spare: HeapCircularBuffer<Delta>,
}

impl Model for Undo {
    ghost use Rattle.cept_undo.specs.Past.{Edits, HasRoom};

    ghost Value = { Edits };

    ghost view = { λ u. record { kept = u.kept.items; undone = u.undone.items; begun = u.begun } };

    ghost invariant = { λ u. HasRoom u.kept.items u.kept.capacity u.undone.items u.undone.capacity
        u.begun u.spare.items u.spare.capacity };
}

impl Undo {
    /// No edit is kept, none is undone, and none is begun. It fits every screen.
    pub fn new(alloc: Global) -> Result<Undo, NoMemory>
        ensures past { IfOk result (λ undo. (screen : State) → past undo screen ≡ []) }
        ensures future { IfOk result (λ undo. (screen : State) → future undo screen ≡ []) }
        ensures none_begun { IfOk result IsNotBegun }
        ensures fits { IfOk result (λ undo. (screen : State) → IsValidState screen
            → FitsTogether undo screen) }
    {
        let kept = HeapCircularBuffer::with_capacity(alloc, MOST_KEPT)?;
        let undone = HeapCircularBuffer::with_capacity(alloc, MOST_KEPT)?;
        let mut spare = HeapCircularBuffer::with_capacity(alloc, MOST_KEPT + 1)?;
        for _place in 0..MOST_KEPT + 1 {
            let _ = spare.push_front(Delta::new(alloc)?);
        }
        Ok(Undo {
            kept,
            undone,
            begun: None,
            spare,
        })
    }

    /// Begins an edit at the screen's state. What was undone can't be redone.
    pub fn begin(&mut self, screen: &Screen)
        requires between { IsBetweenEdits self.old screen.now }
        ensures past { past self.new screen.now ≡ past self.old screen.now }
        ensures future { future self.new screen.now ≡ [] }
        ensures at_begin { at_begin self.new screen.now ≡ Some screen.now }
        ensures within { IsWithinEdit self.new screen.now }
    {
        let mut delta = take_free(&mut self.undone, &mut self.spare);
        give_back(&mut self.undone, &mut self.spare);
        screen.begin_notes(&mut delta);
        self.begun = Some(delta);
    }

    /// Applies a command of the edit, marks and paints as the screen does.
    pub fn apply<G: Glass, L: Ledger>(
        &mut self,
        screen: &mut Screen,
        command: Command,
        glass: &mut G,
        marks: &mut Marks,
        steps: &mut Steps<L>,
    )
        requires within { IsWithinEdit self.old screen.old }
        requires valid { IsValidCommand command }
        ensures edit { StaysBegun self.old screen.old self.new screen.new }
        ensures applied { IsApplied screen.old command screen.new marks.new
            (G.state glass.old) (G.state glass.new) steps.old steps.new }
    {
        if let Some(delta) = &mut self.begun {
            screen.apply_noting(command, glass, marks, delta, steps);
        } else {
            unreachable!()
        }
    }

    /// Applies a command outside all edits, marks and paints as the screen does. The latest kept edit
    /// takes it up, so that it is undone with that edit; where none is kept, no undo reaches it.
    /// What was undone can't be redone, as after a new edit.
    #[inline(always)]
    pub fn apply_outside<G: Glass, L: Ledger>(
        &mut self,
        screen: &mut Screen,
        command: &Command,
        glass: &mut G,
        marks: &mut Marks,
        steps: &mut Steps<L>,
    )
        requires between { IsBetweenEdits self.old screen.old }
        requires valid { IsValidCommand command.now }
        ensures { IsAppliedOutside self.old screen.old command.now self.new screen.new marks.new
            (G.state glass.old) (G.state glass.new) steps.old steps.new }
    {
        if self.holds_none() {
            screen.apply_from(command, glass, marks, steps);
        } else {
            self.apply_to_latest(screen, command, glass, marks, steps);
        }
    }

    /// Whether no edit is kept and none is undone.
    #[inline(always)]
    fn holds_none(&self) -> bool
        ensures kept { result ≡ true → self.now.kept ≡ [] }
        ensures undone { result ≡ true → self.now.undone ≡ [] }
    {
        self.kept.is_empty() && self.undone.is_empty()
    }

    /// Applies a command outside all edits where an edit is kept or undone.
    // Apart, since most often none is.
    #[inline(never)]
    fn apply_to_latest<G: Glass, L: Ledger>(
        &mut self,
        screen: &mut Screen,
        command: &Command,
        glass: &mut G,
        marks: &mut Marks,
        steps: &mut Steps<L>,
    )
        requires between { IsBetweenEdits self.old screen.old }
        requires valid { IsValidCommand command.now }
        ensures { IsAppliedOutside self.old screen.old command.now self.new screen.new marks.new
            (G.state glass.old) (G.state glass.new) steps.old steps.new }
    {
        give_back(&mut self.undone, &mut self.spare);
        match self.kept.pop_front() {
            Some(mut latest) => {
                screen.apply_noting(*command, glass, marks, &mut latest, steps);
                let _ = self.kept.push_front(latest);
            }
            None => screen.apply_from(command, glass, marks, steps),
        }
    }

    /// Keeps the edit. Where 64 are kept, the oldest is dropped whole.
    pub fn commit(&mut self)
        requires { IsBegun self.old }
        ensures past { (screen before : State) → at_begin self.old screen ≡ Some before
            → past self.new screen ≡ take most_kept (before ∷ past self.old screen) }
        ensures future { (screen : State) → future self.new screen ≡ [] }
        ensures none_begun { IsNotBegun self.new }
        ensures fits { (screen : State) → FitsTogether self.old screen
            → FitsTogether self.new screen }
    {
        let delta = self.begun.take().unwrap();
        if let Some(oldest) = self.kept.push_front(delta) {
            let _ = self.spare.push_front(oldest);
        }
    }

    /// Undoes the latest kept edit: brings the state before it, marks exactly the places whose look
    /// changes, and paints each of them once, in reading order, with its new look. The edit can then
    /// be redone. Where none is kept, nothing is touched.
    pub fn undo<G: Glass, L: Ledger>(
        &mut self,
        screen: &mut Screen,
        glass: &mut G,
        marks: &mut Marks,
        steps: &mut Steps<L>,
    ) -> Undone
        requires between { IsBetweenEdits self.old screen.old }
        ensures moves { MovesEdit (past self.old screen.old) (future self.old screen.old)
            screen.old (past self.new screen.new) (future self.new screen.new) screen.new }
        ensures between { IsBetweenEdits self.new screen.new }
        ensures paints { PaintsUndoRedo screen.old screen.new marks.new (G.state glass.old)
            (G.state glass.new) steps.old steps.new }

        // Where no edit is kept.
        ensures nothing { (result ≡ Undone.Nothing) ↔ (past self.old screen.old ≡ []) }
        ensures stays { result ≡ Undone.Nothing → self.new ≡ self.old }
        ensures untouched { result ≡ Undone.Nothing → TouchesNothing screen.old screen.new
            glass.old glass.new marks.new steps.old steps.new }
    {
        if move_edit(
            &mut self.kept,
            &mut self.undone,
            screen,
            glass,
            marks,
            steps,
        ) {
            Undone::Undone
        } else {
            Undone::Nothing
        }
    }

    /// Redoes the edit that was undone last: brings the state after it, marks exactly the places whose
    /// look changes, and paints each of them once, in reading order, with its new look. The edit is
    /// then the latest kept one. Where none is undone, nothing is touched.
    pub fn redo<G: Glass, L: Ledger>(
        &mut self,
        screen: &mut Screen,
        glass: &mut G,
        marks: &mut Marks,
        steps: &mut Steps<L>,
    ) -> Redone
        requires between { IsBetweenEdits self.old screen.old }
        ensures moves { MovesEdit (future self.old screen.old) (past self.old screen.old)
            screen.old (future self.new screen.new) (past self.new screen.new) screen.new }
        ensures between { IsBetweenEdits self.new screen.new }
        ensures paints { PaintsUndoRedo screen.old screen.new marks.new (G.state glass.old)
            (G.state glass.new) steps.old steps.new }

        // Where no edit is undone.
        ensures nothing { (result ≡ Redone.Nothing) ↔ (future self.old screen.old ≡ []) }
        ensures stays { result ≡ Redone.Nothing → self.new ≡ self.old }
        ensures untouched { result ≡ Redone.Nothing → TouchesNothing screen.old screen.new
            glass.old glass.new marks.new steps.old steps.new }
    {
        if move_edit(
            &mut self.undone,
            &mut self.kept,
            screen,
            glass,
            marks,
            steps,
        ) {
            Redone::Redone
        } else {
            Redone::Nothing
        }
    }

    /// How many edits are kept, at most 64.
    pub fn kept(&self) -> u32
        ensures past { (screen : State) → result ≡ length (past self.now screen) }
        ensures at_most_64 { result ≤ 64 }
    {
        self.kept.len() as u32
    }

    /// How many edits are undone and can be redone, at most 64, and as many as are kept less.
    pub fn undone(&self) -> u32
        ensures future { (screen : State) → result ≡ length (future self.now screen) }
        ensures at_most_64 { result ≤ 64 }
        ensures together { (screen : State)
            → length (past self.now screen) + length (future self.now screen) ≤ 64 }
    {
        self.undone.len() as u32
    }
}
