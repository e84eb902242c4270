//! Laws of drawings. The functions do nothing: their contracts are the laws.

ghost use Rattle.std.specs.Prelude.{◌≡◌, ℕ, Bool, List};
ghost use Rattle.cept_plot.specs.declared.figure.Figure.{Figure};
ghost use Rattle.cept_plot.specs.Commands.{IsDrawnOn, drawn};
ghost use Rattle.cept_plot.specs.Drawings.{points_after_all};
ghost use Rattle.cept_repaint.specs.InTurn.{state_after_all};
ghost use Rattle.cept_plot.specs.Points.{OnField};
ghost use Rattle.cept_profile.specs.State.{Core, State, core_of};
ghost use Rattle.cept_profile.specs.Valid.{AllValid, IsValidState};

/// After its commands a set of points is drawn on a page.
pub fn a_set_of_points_is_drawn()
    ensures { (s : State) → IsValidState s → (f : ℕ → ℕ → Bool)
        → IsDrawnOn (core_of s) f (core_of (state_after_all s (drawn (core_of s) f))) }
{}

/// The commands that draw a set of points are valid, and depend on its points on the field alone; and
/// what figures leave of a point depends on that point alone.
pub fn the_points_of_the_field_decide()
    ensures valid { (k : Core) (f : ℕ → ℕ → Bool) → AllValid (drawn k f) }
    ensures same { (k : Core) (f g : ℕ → ℕ → Bool)
        → ((x y : ℕ) → OnField x y → f x y ≡ g x y) → drawn k f ≡ drawn k g }
    ensures point { (f g : ℕ → ℕ → Bool) (figures : List Figure) (x y : ℕ) → f x y ≡ g x y
        → points_after_all f figures x y ≡ points_after_all g figures x y }
{}
