ghost use Rattle.std.specs.Prelude.{◌≡◌};
ghost use Rattle.cept_codes.specs.Look.{IsValidLook};
ghost use Rattle.cept_profile.specs.Changes.{look_at};

use crate::glass::Glass;
use cept_codes::{Look, Pos};

/// The look that a glass shows at a place, and that it is valid, as all looks of a glass are.
#[inline(always)]
pub fn shown_look<G: Glass>(glass: &G, at: Pos) -> Look
    ensures look { result ≡ look_at (G.state glass.now).grid at }
    ensures valid { IsValidLook result }
{
    // That the place is on the screen is known to the prover by its row.
    let _row = at.row();
    glass.shown(at)
}
