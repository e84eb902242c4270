//! Law of repeated signs: what copies of a sign make of control, and their strokes.
ghost use Rattle.std.specs.Prelude.{◌≡◌, ℕ, ◌+◌, ◌*◌, ◌≤◌, None, [], ◌++◌, length};
ghost use Rattle.cept_codes.specs.declared.glyph.Glyph.{Glyph};
ghost use Rattle.cept_profile.specs.Control.{ControlState, control_with};
ghost use Rattle.cept_profile.specs.Motions.{scrolling_area};
ghost use Rattle.cept_profile.specs.Writing.{effect_of_copies, effect_of_sign};

/// Copies of a sign are written one after the other, each as a sign alone is, with a stroke each
/// and at most one shift, none where no area scrolls.
pub fn copies_are_written_in_turn()
    ensures none { (s : ControlState) (g : Glyph) → effect_of_copies 0 s g ≡ (s.working, []) }
    ensures more { (n : ℕ) (s : ControlState) (g : Glyph)
        → (let before = effect_of_copies n s g in
        let more = effect_of_sign (control_with s before.0) g in
        effect_of_copies (n + 1) s g ≡ (more.0, before.1 ++ more.1)) }
    ensures two_each { (n : ℕ) (s : ControlState) (g : Glyph)
        → length (effect_of_copies n s g).1 ≤ 2 * n }
    ensures one_each { (n : ℕ) (s : ControlState) (g : Glyph) → scrolling_area s ≡ None
        → length (effect_of_copies n s g).1 ≡ n }
{}
