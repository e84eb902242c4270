//! Laws of serial attributes: the nearest marker of a class is in force, and a walk along the row
//! needs only what counts before a cell.
ghost use Rattle.std.specs.Prelude.{◌≡◌, ℕ, ◌+◌, ◌≤◌, ◌<◌, false, Option, Some, None, MatchOption, IfSome};
ghost use Rattle.cept_codes.specs.declared.attribute.Pen.{Pen};
ghost use Rattle.cept_codes.specs.declared.cell.What.{What};
ghost use Rattle.cept_codes.specs.Attribute.{IsValidFull, IsValidPen, unset_pen};
ghost use Rattle.cept_codes.specs.Cell.{IsValidWhat};
ghost use Rattle.cept_codes.specs.Glyph.{IsValidGlyph};
ghost use Rattle.cept_profile.specs.Attributes.{cascade};
ghost use Rattle.cept_profile.specs.Serial.{held_sign, is_marker, nearest_said, serial_attributes};
ghost use Rattle.cept_profile.specs.Influence.{influence_after, influence, held_sign_in, influence_in};

/// What is in force is what the nearest column says: none between says anything, and where nothing
/// is in force none does.
pub fn the_nearest_marker_is_in_force<X>()
    ensures { (says : ℕ → Option X) (c : ℕ)
        → MatchOption (nearest_said says c) ((d : ℕ) → 1 ≤ d → d ≤ c → says d ≡ None)
        (λ x. (d : ℕ) × (1 ≤ d) × (d ≤ c) × (says d ≡ Some x)
        × ((e : ℕ) → d < e → e ≤ c → says e ≡ None)) }
{}

/// One more cell needs what counts before it alone: its attributes, the sign that it holds, and
/// what counts after it.
pub fn one_more_cell()
    ensures at_first { (row : ℕ → What) (pen screen : Pen)
        → influence row pen screen 0 ≡ record {
          full = cascade unset_pen pen screen;
          hold =
              false;
          kept_sign = None;
        } }
    ensures attributes { (row : ℕ → What) (pen screen : Pen) (c : ℕ)
        → serial_attributes row pen screen (c + 1)
        ≡ (influence_in (row (c + 1)) (influence row pen screen c)).full }
    ensures sign { (row : ℕ → What) (pen screen : Pen) (c : ℕ)
        → held_sign row (c + 1) ≡ held_sign_in (row (c + 1)) (influence row pen screen c) }
    ensures influence { (row : ℕ → What) (pen screen : Pen) (c : ℕ)
        → influence row pen screen (c + 1) ≡ influence_after (row (c + 1)) (influence row pen screen c) }
{}

/// A cell counts for itself and for those to its right: rows that agree up to a column have the
/// same attributes and the same held sign there.
pub fn cells_to_the_right_count_for_nothing()
    ensures attributes { (f g : ℕ → What) (pen screen : Pen) (c : ℕ) → 1 ≤ c
        → ((d : ℕ) → 1 ≤ d → d ≤ c → f d ≡ g d)
        → serial_attributes f pen screen c ≡ serial_attributes g pen screen c }
    ensures sign { (f g : ℕ → What) (c : ℕ) → 1 ≤ c → ((d : ℕ) → 1 ≤ d → d ≤ c → f d ≡ g d)
        → held_sign f c ≡ held_sign g c }
{}

/// In a row without markers the row and the screen alone decide.
pub fn without_markers()
    ensures { (row : ℕ → What) (pen screen : Pen) (c : ℕ) → 1 ≤ c
        → ((d : ℕ) → 1 ≤ d → d ≤ c → is_marker (row d) ≡ false)
        → serial_attributes row pen screen c ≡ cascade unset_pen pen screen }
{}

/// Valid cells under valid pens have valid attributes and hold valid signs.
pub fn serial_attributes_are_valid()
    ensures attributes { (row : ℕ → What) (pen screen : Pen) (c : ℕ) → 1 ≤ c → IsValidPen pen
        → IsValidPen screen → ((d : ℕ) → 1 ≤ d → d ≤ c → IsValidWhat (row d))
        → IsValidFull (serial_attributes row pen screen c) }
    ensures sign { (row : ℕ → What) (c : ℕ) → 1 ≤ c
        → ((d : ℕ) → 1 ≤ d → d ≤ c → IsValidWhat (row d)) → IfSome (held_sign row c) IsValidGlyph }
{}
