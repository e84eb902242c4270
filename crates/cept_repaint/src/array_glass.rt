ghost use Rattle.std.specs.Prelude.{◌≡◌, None};
ghost use Rattle.cept_codes.specs.Look.{blank_look};
ghost use Rattle.cept_codes.specs.Table.{table};
ghost use Rattle.cept_profile.specs.Valid.{IsValidGrid};
ghost use Rattle.cept_repaint.specs.ValidGrid.{IsValidGrid-prop};

use crate::glass::Glass;
use crate::screen::Screen;
use cept_codes::{Look, Pos, Row};
use cept_rows::RowLooks;
use std::array;

/// A glass in an array of its own, which takes no memory: it has some 165 KB itself. It keeps the look at
/// each place, and tells no list of paints.
#[derive(Drop)]
pub struct ArrayGlass {
    rows: [RowLooks; 24],
    ghost valid: { IsValidGrid rows } by { IsValidGrid-prop rows },
}

impl ArrayGlass {
    ghost use Rattle.cept_repaint.specs.ArrayGlass.{array_glass_state};

    /// A glass that is blank everywhere.
    // In place, since it is large.
    #[inline(always)]
    pub fn new() -> ArrayGlass
        ensures blank { (array_glass_state result).grid ≡ table (λ _ _. blank_look) }
        ensures untold { (array_glass_state result).paints ≡ None }
    {
        ArrayGlass {
            rows: array::from_fn(|_row| RowLooks::flat()),
        }
    }
}

impl Glass for ArrayGlass {
    ghost use Rattle.cept_repaint.specs.ArrayGlass.{array_glass_state};

    ghost state = { array_glass_state };

    fn paint(&mut self, at: Pos, screen: &Screen) {
        let looks = screen.row_looks(at.row());
        looks.columns_by_type();
        self.rows[at.in_row().index()].copy_at(at.in_column(), looks);
    }

    fn paint_row(&mut self, row: Row, flags: &[bool], screen: &Screen) {
        let looks = screen.row_looks(row.number());
        looks.columns_by_type();
        self.rows[row.index()].copy_flagged(flags, looks);
    }

    fn shown(&self, at: Pos) -> Look {
        self.rows[at.in_row().index()].at(at.col())
    }

    ghost valid = { λ glass. glass.valid };
}
