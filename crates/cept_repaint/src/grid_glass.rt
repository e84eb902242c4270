ghost use Rattle.std.specs.Prelude.{◌≡◌, None, IfOk};
ghost use Rattle.cept_codes.specs.Look.{blank_look};
ghost use Rattle.cept_codes.specs.Table.{table};
ghost use Rattle.cept_profile.specs.Valid.{IsValidGrid};
ghost use Rattle.cept_repaint.specs.ValidGrid.{IsValidGrid-prop};

use crate::glass::Glass;
use crate::screen::Screen;
use cept_codes::{Look, NoMemory, Pos, Row};
use cept_redraw::KeptRows;
use std::alloc::Global;

/// A glass in memory. It keeps the look at each place, and tells no list of paints.
#[derive(Drop)]
pub struct GridGlass {
    rows: KeptRows,
    ghost valid: { IsValidGrid rows } by { IsValidGrid-prop rows },
}

impl GridGlass {
    ghost use Rattle.cept_repaint.specs.GridGlass.{grid_glass_state};

    /// A glass that is blank everywhere.
    pub fn new(alloc: Global) -> Result<GridGlass, NoMemory>
        ensures blank { IfOk result (λ glass. (grid_glass_state glass).grid
            ≡ table (λ _ _. blank_look)) }
        ensures untold { IfOk result (λ glass. (grid_glass_state glass).paints ≡ None) }
    {
        let rows = KeptRows::new(alloc)?;
        Ok(GridGlass { rows })
    }
}

impl Glass for GridGlass {
    ghost use Rattle.cept_repaint.specs.GridGlass.{grid_glass_state};

    ghost state = { grid_glass_state };

    fn paint(&mut self, at: Pos, screen: &Screen) {
        let looks = screen.row_looks(at.row());
        looks.columns_by_type();
        self.rows.copy_at(at, looks);
    }

    fn paint_row(&mut self, row: Row, flags: &[bool], screen: &Screen) {
        let looks = screen.row_looks(row.number());
        looks.columns_by_type();
        self.rows.copy_flagged(row, flags, looks);
    }

    fn shown(&self, at: Pos) -> Look {
        self.rows.get(at)
    }

    ghost valid = { λ glass. glass.valid };
}
