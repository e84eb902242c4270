ghost use Rattle.std.specs.Prelude.{◌≡◌, ◌<◌, List, IfOk};
ghost use Rattle.cept_codes.specs.declared.look.Look.{Look as LookValue};
ghost use Rattle.cept_codes.specs.Look.{IsValidLook, blank_look};
ghost use Rattle.cept_codes.specs.Same.{same_look};
ghost use Rattle.cept_codes.specs.Table.{table};
ghost use Rattle.cept_flash.specs.Flashing.{AreFlashing};
ghost use Rattle.cept_flash.specs.Phases.{frame, next_phase};
ghost use Rattle.cept_profile.specs.Changes.{differences, look_at};
ghost use Rattle.cept_profile.specs.Look.{looks_of};
ghost use Rattle.cept_profile.specs.State.{core_of};
ghost use Rattle.cept_repaint.specs.GridGlass.{grid_glass_state};

use crate::phases::{flashes_seen, look_at_phase, next_phase, turns};
use arrayvec::ArrayVec;
use cept_codes::{Flash, Look, NoMemory, Pos};
use cept_repaint::{Glass, GridGlass, Marks, Screen, shown_look};
use std::alloc::Global;
use std::marker::Model;

/// A place whose look isn't the same at all phases, and how it flashes.
#[derive(Clone, Copy)]
pub(crate) struct Flashing {
    pub(crate) at: Pos,
    pub(crate) flash: Flash,
}

// What room without a place holds.
impl Default for Flashing {
    fn default() -> Flashing {
        Flashing {
            at: Pos::new(1, 1).unwrap(),
            flash: Flash::Steady,
        }
    }
}

/// A screen whose signs flash: the looks of all its places, and a phase, 0 to 5. Beside them stand
/// the places that don't look the same at all phases, so that a turn looks at no others. In fixed
/// memory.
#[derive(Drop)]
pub struct Blink {
    kept: GridGlass,
    flashing: ArrayVec<Flashing, 960>,
    phase: u8,
}

impl Model for Blink {
    ghost use Rattle.cept_flash.specs.Flashing.{FlashingGrid, IsKept};
    ghost use Rattle.cept_repaint.specs.GridGlass.{grid_glass_state};

    ghost Value = { FlashingGrid };

    ghost view = { λ b. record { looks = (grid_glass_state b.kept).grid; phase = b.phase } };

    ghost invariant = { λ b. IsKept (grid_glass_state b.kept).grid b.phase b.flashing.items };
}

impl Blink {
    /// Blank looks, at phase 0.
    pub fn new(alloc: Global) -> Result<Blink, NoMemory>
        ensures looks { IfOk result (λ blink. blink.looks ≡ table (λ _ _. blank_look)) }
        ensures phase { IfOk result (λ blink. blink.phase ≡ 0) }
    {
        let kept = GridGlass::new(alloc)?;
        Ok(Blink {
            kept,
            flashing: ArrayVec::new(),
            phase: 0,
        })
    }

    /// Keeps the looks of a screen, at phase 0. Marks exactly the places that aren't blank at that phase.
    pub fn start(&mut self, screen: &Screen, marks: &mut Marks)
        ensures looks { self.new.looks ≡ looks_of (core_of screen.now) }
        ensures phase { self.new.phase ≡ 0 }
        ensures marks { marks.new
            ≡ differences (table (λ _ _. blank_look)) (frame (looks_of (core_of screen.now)) 0) }
    {
        keep_looks(screen, &mut self.kept);
        find_flashing(&self.kept, &mut self.flashing);
        self.phase = 0;
        mark_shown(&self.kept, marks);
    }

    /// Goes to the next phase, from 5 to 0. Marks exactly the places whose look at that phase isn't the one before.
    pub fn turn(&mut self, marks: &mut Marks)
        ensures looks { self.new.looks ≡ self.old.looks }
        ensures phase { self.new.phase ≡ next_phase self.old.phase }
        ensures marks { marks.new
            ≡ differences (frame self.old.looks self.old.phase) (frame self.new.looks self.new.phase) }
    {
        let before = self.phase;
        self.phase = next_phase(before);
        mark_turning(&self.flashing, before, self.phase, marks);
    }

    /// The phase, 0 to 5.
    pub fn phase(&self) -> u8
        ensures phase { result ≡ self.now.phase }
        ensures valid { result < 6 }
    {
        self.phase
    }

    /// The look at a place at this phase.
    pub fn now(&self, at: Pos) -> Look
        ensures look { result ≡ look_at (frame self.now.looks self.now.phase) at }
        ensures valid { IsValidLook result }
    {
        // That the place is on the screen is known to the prover by its row.
        let _row = at.row();
        look_at_phase(&shown_look(&self.kept, at), self.phase)
    }
}

/// Keeps the looks of a screen.
fn keep_looks(screen: &Screen, kept: &mut GridGlass)
    ensures { (grid_glass_state kept.new).grid ≡ looks_of (core_of screen.now) }
{
    for n in 0..960u16 {
        kept.paint(Pos::from_number(n).unwrap(), screen);
    }
}

/// Lists the places whose look isn't the same at all phases.
fn find_flashing(kept: &GridGlass, flashing: &mut ArrayVec<Flashing, 960>)
    ensures { AreFlashing (grid_glass_state kept.now).grid flashing.new.items 960 }
{
    flashing.clear();
    for n in 0..960u16 {
        let at = Pos::from_number(n).unwrap();
        let look = kept.shown(at);
        if flashes_seen(&look) {
            flashing.push(Flashing {
                at,
                flash: look.flash,
            });
        }
    }
}

/// Marks the places that aren't blank at phase 0.
fn mark_shown(kept: &GridGlass, marks: &mut Marks)
    ensures { marks.new
        ≡ differences (table (λ _ _. blank_look)) (frame (grid_glass_state kept.now).grid 0) }
{
    marks.clear();
    for n in 0..960u16 {
        let at = Pos::from_number(n).unwrap();
        if !is_blank(&look_at_phase(&shown_look(kept, at), 0)) {
            marks.mark(at);
        }
    }
}

/// Whether a look is a space, white on black, with no attribute.
fn is_blank(look: &Look) -> bool
    ensures { result ≡ same_look look.now blank_look }
{
    *look == Look::BLANK
}

/// Marks the places whose look isn't the same at these two phases.
fn mark_turning(flashing: &[Flashing], before: u8, after: u8, marks: &mut Marks)
    ensures { (looks : List (List LookValue)) → AreFlashing looks flashing.now 960
        → marks.new ≡ differences (frame looks before) (frame looks after) }
{
    marks.clear();
    for flashing in flashing {
        if turns(flashing.flash, before, after) {
            marks.mark(flashing.at);
        }
    }
}
