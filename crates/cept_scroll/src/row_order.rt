ghost use Rattle.std.specs.Prelude.{◌≡◌, ◌≢◌, ◌-◌, ◌<◌, ◌≤◌, ℕ, length};
ghost use Rattle.cept_codes.specs.Command.{IsArea};
ghost use Rattle.cept_scroll.specs.Order.{IsRowOrder, first_order, freed_slot, order_after, slot_of};

use cept_codes::Up;
use std::marker::Model;

/// Which slot holds which row. A slot is the room in which a row's cells and looks are kept: where
/// rows move, their slots change hands and nothing in them is copied.
#[derive(Clone, Copy, Debug)]
pub struct RowOrder {
    slots: [u8; 24],
}

impl Model for RowOrder {
    ghost use Rattle.std.specs.Prelude.{ℕ, List};
    ghost use Rattle.cept_scroll.specs.Order.{IsRowOrder};

    ghost Value = { List ℕ };

    ghost view = { λ o. o.slots };

    ghost invariant = { λ o. IsRowOrder o.slots };

    ghost inverse = { λ order. record { slots = order } };
}

impl RowOrder {
    /// Each row in the slot of its own number.
    pub fn new() -> RowOrder
        ensures { result ≡ first_order }
    {
        let mut slots = [0; 24];
        for i in 0..24u8 {
            slots[usize::from(i)] = i + 1;
        }
        RowOrder { slots }
    }

    /// The slot that holds a row, 1 to 24.
    #[inline(always)]
    pub fn slot(&self, row: u8) -> u8
        requires from_top { 1 ≤ row }
        requires to_bottom { row ≤ 24 }
        ensures slot { result ≡ slot_of self.now row }
        ensures from_first { 1 ≤ result }
        ensures to_last { result ≤ 24 }
    {
        self.slots[usize::from(row) - 1]
    }

    /// The index of that slot in what is kept, slot 1 first.
    #[inline(always)]
    pub fn index(&self, row: u8) -> usize
        requires from_top { 1 ≤ row }
        requires to_bottom { row ≤ 24 }
        ensures index { result ≡ slot_of self.now row - 1 }
        ensures kept { result < 24 }
    {
        usize::from(self.slot(row)) - 1
    }

    /// Moves the rows from the first to the last, `1 <= first <= last <= 24`, one row up or down,
    /// each with its slot. Answers the slot of the row that left the area, which holds the row that
    /// came free from now on.
    pub fn turn(&mut self, first: u8, last: u8, way: Up) -> u8
        requires { IsArea first last }
        ensures order { self.new ≡ order_after way first last self.old }
        ensures freed { result ≡ freed_slot way first last self.old }
    {
        let freed = match way {
            Up::Up => self.slot(first),
            Up::Down => self.slot(last),
        };
        turn_rows(&mut self.slots, first, last, way);
        freed
    }

    /// Tells the prover that each slot holds one row: reading a field opens the model.
    pub fn ordered_by_type(&self)
        ensures order { IsRowOrder self.now }
        ensures slots_differ { (q r : ℕ) → 1 ≤ q → q ≤ 24 → 1 ≤ r → r ≤ 24 → q ≢ r
            → slot_of self.now q ≢ slot_of self.now r }
    {
        let _slots = &self.slots;
    }
}

/// Moves the slots of the rows of an area one row up or down, and the one that leaves the area to
/// its other end.
fn turn_rows(slots: &mut [u8; 24], first: u8, last: u8, way: Up)
    requires area { IsArea first last }
    requires rows { length slots.old ≡ 24 }
    ensures { slots.new ≡ order_after way first last slots.old }
{
    let area = &mut slots[usize::from(first) - 1..usize::from(last)];
    match way {
        Up::Up => area.rotate_left(1),
        Up::Down => area.rotate_right(1),
    }
}
