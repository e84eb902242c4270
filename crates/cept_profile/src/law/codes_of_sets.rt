//! Law of reading: what a code of a set gives.
ghost use Rattle.std.specs.Prelude.{◌≡◌, ℕ, ◌≤◌, ◌↔◌};
ghost use Rattle.cept_codes.specs.Command.{IsGraphic};
ghost use Rattle.cept_profile.specs.Sets.{IsAccent, IsValidRead, code_of, read_as};

use cept_codes::{Read, SetId};

/// A graphic byte has a code from 2/0 to 7/15. Each code gives a valid sign or an accent, and an
/// accent exactly where set S has one.
pub fn codes_give_signs_or_accents()
    ensures code { (byte : ℕ) → IsGraphic byte → (0x20 ≤ code_of byte) × (code_of byte ≤ 0x7F) }
    ensures valid { (set : SetId) (code : ℕ) → (0x20 ≤ code) × (code ≤ 0x7F)
        → IsValidRead (read_as set code) }
    ensures accent { (set : SetId) (code : ℕ)
        → (read_as set code ≡ Read.Accent code) ↔ ((set ≡ SetId.S) × IsAccent code) }
{}
