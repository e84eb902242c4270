ghost use Rattle.std.specs.Prelude.{◌≡◌};
ghost use Rattle.cept_profile.specs.Control.{initial_working};

use cept_charsets::Sets;
use cept_codes::{C1Set, Glyph, Pen};
use std::marker::Model;

/// The working state: what a break of the service keeps.
#[derive(Clone, Copy, Debug)]
pub(crate) struct Working {
    pub(crate) row: u8,
    pub(crate) column: u8,
    pub(crate) c1: C1Set,
    pub(crate) sets: Sets,
    pub(crate) accent: Option<u8>,
    pub(crate) last: Option<Glyph>,
    pub(crate) pen: Pen,
    pub(crate) fast: u8,
    pub(crate) run: bool,
    pub(crate) step: u8,
    pub(crate) table: u8,
    pub(crate) protect: bool,
}

impl Model for Working {
    ghost use Rattle.cept_profile.specs.Control.{Working as WorkingState};

    ghost Value = { WorkingState };

    ghost use Rattle.cept_control.specs.inside.Fields.{working_of, working_fields};

    ghost view = { working_of };

    ghost inverse = { working_fields };
}

impl Working {
    /// The working state at the start.
    pub(crate) fn new() -> Working
        ensures { result ≡ initial_working }
    {
        Working {
            row: 1,
            column: 1,
            c1: C1Set::Parallel,
            sets: Sets::new(),
            accent: None,
            last: None,
            pen: Pen::UNSET,
            fast: 0,
            run: false,
            step: 1,
            table: 0,
            protect: false,
        }
    }
}
