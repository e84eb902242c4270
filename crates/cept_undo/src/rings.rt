ghost use Rattle.std.specs.Prelude.{◌≡◌, ◌≤◌, ◌<◌, ◌+◌, ◌↔◌, false, [], length};
ghost use Rattle.std.specs.List.{AllByRecursion};
ghost use Rattle.cept_profile.specs.Valid.{IsValidState};
ghost use Rattle.cept_undo.specs.Past.{unwound_in_turn};
ghost use Rattle.cept_undo.specs.UndoRedo.{MovesEdit, PaintsUndoRedo, TouchesNothing};

use cept_outside::Steps;
use cept_repaint::{Delta, Glass, Marks, Screen};
use circular_buffer::HeapCircularBuffer;
use std::sync::ledger::Ledger;

/// Moves the nearest edit of one ring to the other: brings the screen to the state to which its delta
/// leads, and hands the delta on, which then leads back. Where there is none, nothing is touched.
/// Answers whether there was one.
pub(crate) fn move_edit<G: Glass, L: Ledger>(
    from: &mut HeapCircularBuffer<Delta>,
    to: &mut HeapCircularBuffer<Delta>,
    screen: &mut Screen,
    glass: &mut G,
    marks: &mut Marks,
    steps: &mut Steps<L>,
) -> bool
    requires room { length from.old.items + length to.old.items ≤ to.old.capacity }
    requires valid { AllByRecursion IsValidState (unwound_in_turn screen.old from.old.items) }
    requires valid_back { AllByRecursion IsValidState (unwound_in_turn screen.old to.old.items) }
    ensures moves { MovesEdit (unwound_in_turn screen.old from.old.items)
        (unwound_in_turn screen.old to.old.items) screen.old
        (unwound_in_turn screen.new from.new.items) (unwound_in_turn screen.new to.new.items)
        screen.new }
    ensures valid { AllByRecursion IsValidState (unwound_in_turn screen.new from.new.items) }
    ensures valid_back { AllByRecursion IsValidState (unwound_in_turn screen.new to.new.items) }
    ensures total { length from.new.items + length to.new.items
        ≡ length from.old.items + length to.old.items }
    ensures from_places { from.new.capacity ≡ from.old.capacity }
    ensures to_places { to.new.capacity ≡ to.old.capacity }
    ensures paints { PaintsUndoRedo screen.old screen.new marks.new (G.state glass.old)
        (G.state glass.new) steps.old steps.new }

    // Where there is none.
    ensures nothing { (result ≡ false) ↔ (from.old.items ≡ []) }
    ensures from_stays { result ≡ false → from.new ≡ from.old }
    ensures to_stays { result ≡ false → to.new ≡ to.old }
    ensures untouched { result ≡ false → TouchesNothing screen.old screen.new glass.old glass.new
        marks.new steps.old steps.new }
{
    match from.pop_front() {
        Some(mut delta) => {
            screen.exchange(&mut delta, glass, marks, steps);
            let _ = to.push_front(delta);
            true
        }
        None => {
            *marks = Marks::new();
            false
        }
    }
}

/// Takes the delta of an undone edit, which then can't be redone, and where there is none a spare one.
pub(crate) fn take_free(
    undone: &mut HeapCircularBuffer<Delta>,
    spare: &mut HeapCircularBuffer<Delta>,
) -> Delta
    requires some { 0 < length undone.old.items + length spare.old.items }
    ensures others { length undone.new.items + length spare.new.items + 1
        ≡ length undone.old.items + length spare.old.items }
    ensures places { undone.new.capacity ≡ undone.old.capacity }
    ensures spare_places { spare.new.capacity ≡ spare.old.capacity }
{
    match undone.pop_front() {
        Some(delta) => delta,
        None => spare.pop_front().unwrap(),
    }
}

/// Gives all deltas of undone edits back to the spare ones.
pub(crate) fn give_back(
    undone: &mut HeapCircularBuffer<Delta>,
    spare: &mut HeapCircularBuffer<Delta>,
)
    requires room { length undone.old.items + length spare.old.items ≤ spare.old.capacity }
    ensures none { undone.new.items ≡ [] }
    ensures places { undone.new.capacity ≡ undone.old.capacity }
    ensures all { length spare.new.items ≡ length undone.old.items + length spare.old.items }
    ensures spare_places { spare.new.capacity ≡ spare.old.capacity }
{
    for _left in 0..undone.len() {
        let delta = undone.pop_front().unwrap();
        let _ = spare.push_front(delta);
    }
}
