ghost use Rattle.std.specs.Prelude.{◌≡◌, ◌≤◌, ◌<◌, List, [], ◌∷◌, ◌++◌, length, Some, None, false};
ghost use Rattle.std.specs.Prelude.{IfOk, vec_len, vec_capacity};
ghost use Rattle.cept_codes.specs.Look.{IsValidLook, blank_look};
ghost use Rattle.cept_codes.specs.Table.{table};
ghost use Rattle.cept_profile.specs.Changes.{look_at};
ghost use Rattle.cept_profile.specs.Look.{looks_of};
ghost use Rattle.cept_profile.specs.State.{core_of};
ghost use Rattle.cept_repaint.specs.GlassState.{Paints, PaintsRow, flagged_looks};
ghost use Rattle.cept_repaint.specs.Tape.{tape_after, tape_after_all};
ghost use Rattle.cept_repaint.specs.ValidGrid.{AreValidPaints, AreValidPaints-prop};

use crate::glass::Glass;
use crate::grid_glass::GridGlass;
use crate::screen::Screen;
use cept_codes::{Column, Look, NoMemory, Pos, Row};
use std::alloc::Global;

/// A glass in memory that keeps the first paints besides. It tells its list as long as all paints
/// had room, and none from then on.
#[derive(Drop)]
pub struct TapeGlass {
    glass: GridGlass,
    paints: Vec<(Pos, Look)>,
    room: usize,
    over: bool,
    ghost fits: { vec_len paints ≤ room },
    ghost taken: { room ≤ vec_capacity paints },
    ghost valid: { AreValidPaints paints.items } by { AreValidPaints-prop paints.items },
}

impl TapeGlass {
    ghost use Rattle.cept_repaint.specs.TapeGlass.{tape_of, tape_room, tape_glass_state};

    /// A glass that is blank everywhere, with room for so many paints. It tells that there were none.
    pub fn new(alloc: Global, room: u32) -> Result<TapeGlass, NoMemory>
        ensures blank { IfOk result (λ glass. (tape_glass_state glass).grid
            ≡ table (λ _ _. blank_look)) }
        ensures none { IfOk result (λ glass. (tape_glass_state glass).paints ≡ Some []) }
        ensures room { IfOk result (λ glass. tape_room glass ≡ room) }
        ensures empty { IfOk result (λ glass. tape_of glass
            ≡ record { kept = []; room = room; over = false }) }
    {
        let glass = GridGlass::new(alloc)?;
        let paints = Vec::with_capacity(alloc, room as usize)?;
        Ok(TapeGlass {
            glass,
            paints,
            room: room as usize,
            over: false,
        })
    }

    /// The first paints in their order, as many as there is room for.
    pub fn paints(&self) -> &[(Pos, Look)]
        ensures kept { result.now ≡ (tape_of self.now).kept }
        ensures valid { AreValidPaints result.now }
    {
        self.paints.as_slice()
    }
}

impl Glass for TapeGlass {
    ghost use Rattle.cept_codes.specs.declared.look.Look.{Look};
    ghost use Rattle.cept_codes.specs.Place.{Place};
    ghost use Rattle.cept_repaint.specs.TapeGlass.{tape_of, tape_room, tape_glass_state};

    ghost state = { tape_glass_state };

    fn paint(&mut self, at: Pos, screen: &Screen)
        ensures paints { Paints (tape_glass_state self.old)
            at (look_at (looks_of (core_of screen.now)) at) (tape_glass_state self.new) }
        ensures tape { tape_of self.new
            ≡ tape_after (tape_of self.old) at (look_at (looks_of (core_of screen.now)) at) }
        ensures told { (former : List (Place × Look))
            → (tape_glass_state self.old).paints ≡ Some former
            → length former < tape_room self.old
            → (tape_glass_state self.new).paints
            ≡ Some (former ++ (at, look_at (looks_of (core_of screen.now)) at) ∷ []) }
        ensures over { (former : List (Place × Look))
            → (tape_glass_state self.old).paints ≡ Some former
            → tape_room self.old ≤ length former
            → (tape_glass_state self.new).paints ≡ None }
        ensures stays_over { (tape_glass_state self.old).paints ≡ None
            → (tape_glass_state self.new).paints ≡ None }
        ensures room { tape_room self.new ≡ tape_room self.old }
    {
        self.glass.paint(at, screen);
        if self.paints.len() < self.room {
            self.paints.push((at, look_in_row(screen, at))).unwrap();
        } else {
            self.over = true;
        }
    }

    // The trait's own loop and conditions, here with what becomes of the tape.
    fn paint_row(&mut self, row: Row, flags: &[bool], screen: &Screen)
        requires columns { length flags.now ≡ 40 }
        ensures paints { PaintsRow (tape_glass_state self.old) flags.now row
            (looks_of (core_of screen.now)) (tape_glass_state self.new) }
        ensures tape { tape_of self.new
            ≡ tape_after_all (tape_of self.old)
            (flagged_looks flags.now row (looks_of (core_of screen.now))) }
        ensures room { tape_room self.new ≡ tape_room self.old }
    {
        for k in 0..40u8 {
            if flags[usize::from(k)] {
                self.paint(Pos::at(row, Column::numbered(k + 1)), screen);
            }
        }
    }

    fn shown(&self, at: Pos) -> Look {
        self.glass.shown(at)
    }

    ghost valid = { λ glass. glass.glass.valid };
}

/// The look of a screen at a place, taken from its row.
fn look_in_row(screen: &Screen, at: Pos) -> Look
    ensures look { result ≡ look_at (looks_of (core_of screen.now)) at }
    ensures valid { IsValidLook result }
{
    screen.row_looks(at.row()).at(at.col())
}
