ghost use Rattle.std.specs.Prelude.{◌≡◌, IfOk, []};
ghost use Rattle.cept_codes.specs.Look.{blank_look};
ghost use Rattle.cept_codes.specs.Table.{table};
ghost use Rattle.cept_profile.specs.State.{Core, state};
ghost use Rattle.cept_redraw.specs.Named.{AreNamed};

use crate::kept_names::KeptNames;
use crate::kept_rows::KeptRows;
use crate::passed_rows::Passed;
use cept_codes::NoMemory;
use cept_page::Page;
use cept_rows::RowLooks;
use std::alloc::Global;

/// A page, the looks that are kept of it, and what its rows name. Beside these there is room for a row
/// while it is resolved, and for two rows as they stood before rows moved.
#[derive(Drop)]
pub struct Picture {
    pub page: Page,
    pub looks: KeptRows,
    pub names: KeptNames,
    pub(crate) fresh: RowLooks,
    pub(crate) passed: Passed,
}

impl Picture {
    /// The page at the start, of which all looks are blank and no names are known.
    pub fn new(alloc: Global) -> Result<Picture, NoMemory>
        ensures page { IfOk result (λ picture. picture.page ≡ (state []).page) }
        ensures looks { IfOk result (λ picture. picture.looks ≡ table (λ _ _. blank_look)) }
        ensures names { IfOk result (λ picture. (k : Core) → AreNamed picture.names k) }
    {
        let page = Page::new(alloc)?;
        let looks = KeptRows::new(alloc)?;
        Ok(Picture {
            page,
            looks,
            names: KeptNames::new(),
            fresh: RowLooks::flat(),
            passed: Passed::new(),
        })
    }
}
