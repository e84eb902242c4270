//! Laws of pattern units on the whole list of their bytes.
ghost use Rattle.std.specs.Prelude.{◌≡◌, ◌≤◌, ◌<◌, ◌+◌, ◌*◌, ℕ, true, false, length, List, [], ◌∷◌};
ghost use Rattle.std.specs.Prelude.{◌++◌, ◌==◌, ◌&&◌, ◌||◌, nat_lt};
ghost use Rattle.cept_codes.specs.Command.{IsValidForm};
ghost use Rattle.cept_codes.specs.Look.{IsValidPattern, pixel};
ghost use Rattle.cept_codes.specs.declared.command.Form.{Form};
ghost use Rattle.cept_drcs.specs.Block.{blank};
ghost use Rattle.cept_drcs.specs.Adding.{part_after_bytes};
ghost use Rattle.cept_drcs.specs.Cut.{Block, blocks};
ghost use Rattle.cept_drcs.specs.Unit.{is_pattern, pattern, pattern_grows, IsLonger, drawn_pixel};

/// Of a valid form, which has a plane, 3/0 alone begins patterns, and is one.
pub fn patterns_begin_with_30()
    ensures first { (f : Form) (a : ℕ) → IsValidForm f → is_pattern f (a ∷ []) ≡ (a == 0x30) }
    ensures plane { (f : Form) → IsValidForm f → nat_lt 0 f.planes ≡ true }
    ensures none { (f : Form) → is_pattern f [] ≡ false }
{}

/// Each beginning of a pattern's bytes, down to the first byte, is a pattern's, at any form.
pub fn beginnings_of_patterns_are_patterns()
    ensures { (f : Form) (a : ℕ) (u v : List ℕ) → is_pattern f (a ∷ u ++ v) ≡ true
        → is_pattern f (a ∷ u) ≡ true }
{}

/// Bytes of a pattern are said to grow exactly where some byte makes longer ones of them, at any
/// form: where their last block hasn't all its lines, or there is a further plane with an opener.
pub fn patterns_grow_where_a_byte_fits()
    ensures longer { (f : Form) (a : ℕ) (u : List ℕ) → is_pattern f (a ∷ u) ≡ true
        → pattern_grows f (a ∷ u) ≡ true → IsLonger f (a ∷ u) }
    ensures no_longer { (f : Form) (a : ℕ) (u : List ℕ) (c : ℕ) → is_pattern f (a ∷ u) ≡ true
        → pattern_grows f (a ∷ u) ≡ false → is_pattern f (a ∷ u ++ c ∷ []) ≡ false }
    ensures last { (f : Form) (u : List ℕ) (bs : List Block) (b : Block)
        → is_pattern f u ≡ true → blocks u ≡ bs ++ b ∷ []
        → pattern_grows f u
        ≡ (nat_lt (length (part_after_bytes f blank b.bytes).lines) f.h
        || (nat_lt b.plane 3 && nat_lt (b.plane + 1) f.planes)) }
{}

/// A pattern has at most an opener for each plane and two bytes for each line of the form, so 100
/// bytes of a valid form.
pub fn patterns_have_at_most_100_bytes()
    ensures form { (f : Form) (u : List ℕ) → is_pattern f u ≡ true
        → length u ≤ f.planes + 2 * (f.planes * f.h) }
    ensures hundred { (f : Form) (u : List ℕ) → IsValidForm f → is_pattern f u ≡ true
        → length u ≤ 100 }
{}

/// Bytes of a valid form that are a pattern's give a valid one: no bit is set past its pixels.
pub fn patterns_are_valid()
    ensures { (f : Form) (u : List ℕ) → IsValidForm f → is_pattern f u ≡ true
        → IsValidPattern (pattern f u) }
{}

/// Each pixel of a pattern is the bit of its column in its line of the plane's block: 0 where the
/// plane has no block, or its block has no such line.
pub fn pixels_are_bits_of_lines()
    ensures { (f : Form) (u : List ℕ) (p y x : ℕ) → IsValidForm f → is_pattern f u ≡ true
        → p < f.planes → y < f.h → x < f.w
        → pixel (pattern f u) p y x ≡ drawn_pixel f u p y x }
{}
