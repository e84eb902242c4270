//! A glass for requests that paint nothing.
ghost use Rattle.std.specs.Prelude.{◌≡◌, None};
ghost use Rattle.cept_codes.specs.Look.{blank_look};
ghost use Rattle.cept_codes.specs.Table.{table};
ghost use Rattle.cept_profile.specs.Valid.{IsValidGrid};
ghost use Rattle.cept_repaint.specs.ValidGrid.{IsValidGrid-prop};
ghost use Rattle.tamligub.specs.inside.Blank.{late_grid};

use cept_codes::{Look, Pos};
use cept_repaint::{ArrayGlass, Glass, Screen};

/// A glass that is blank until it is painted, and does nothing up to then. It takes no memory: it has some
/// 165 KB itself.
#[derive(Drop)]
pub struct LateGlass {
    painted: Option<ArrayGlass>,
    ghost valid: { IsValidGrid (late_grid painted) } by { IsValidGrid-prop (late_grid painted) },
}

impl LateGlass {
    ghost use Rattle.tamligub.specs.LateGlass.{late_glass_state};

    /// A glass that is blank everywhere.
    pub fn new() -> LateGlass
        ensures { (late_glass_state result).grid ≡ table (λ _ _. blank_look) }
    {
        LateGlass { painted: None }
    }
}

impl Glass for LateGlass {
    ghost use Rattle.tamligub.specs.LateGlass.{late_glass_state};

    ghost state = { late_glass_state };

    // Not where the run stands, whose stack it would take though nothing is painted.
    #[inline(never)]
    fn paint(&mut self, at: Pos, screen: &Screen) {
        match &mut self.painted {
            Some(glass) => glass.paint(at, screen),
            None => {
                let mut glass = ArrayGlass::new();
                glass.paint(at, screen);
                self.painted = Some(glass);
            }
        }
    }

    fn shown(&self, at: Pos) -> Look {
        match &self.painted {
            Some(glass) => glass.shown(at),
            None => {
                // That the place is on the screen is known to the prover by its row.
                let _row = at.row();
                Look::BLANK
            }
        }
    }

    ghost valid = { λ glass. glass.valid };
}
