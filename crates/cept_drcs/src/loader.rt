ghost use Rattle.std.specs.Prelude.{◌≡◌, ◌↔◌, ℕ, List, [], ◌∷◌, ◌++◌, true, false, not};
ghost use Rattle.std.specs.Prelude.{if◌then◌else◌};
ghost use Rattle.cept_codes.specs.Command.{IsValidForm};
ghost use Rattle.cept_codes.specs.Look.{IsValidPattern};
ghost use Rattle.cept_codes.specs.declared.command.Form.{Form};

use crate::drawing::Drawing;
use cept_codes::{Form, Pattern};
use std::marker::Model;

/// A pattern as far as its bytes are read, one by one.
#[derive(Drop)]
pub struct Loader {
    drawing: Drawing,
}

impl Model for Loader {
    ghost use Rattle.cept_drcs.specs.Loading.{Loading};

    ghost Value = { Loading };

    ghost use Rattle.cept_drcs.specs.Loading.{IsLed};

    ghost view = { λ l. l.drawing };

    ghost invariant = { λ l. IsLed l.drawing };
}

impl Loader {
    ghost use Rattle.cept_drcs.specs.Loading.{Loading, fresh, takes, loading_after, Leads};
    ghost use Rattle.cept_drcs.specs.Unit.{is_pattern, pattern_grows, pattern};

    /// A pattern before its first byte.
    pub fn new(form: Form) -> Loader
        requires { IsValidForm form }
        ensures state { result ≡ fresh form }
        ensures leads { Leads form [] result }
    {
        Loader {
            drawing: Drawing::new(form),
        }
    }

    /// Begins anew with a pattern of this form. It is cheaper than a new loader in its place.
    pub fn restart(&mut self, form: Form)
        requires { IsValidForm form }
        ensures state { self.new ≡ fresh form }
        ensures leads { Leads form [] self.new }
    {
        self.drawing.restart(form);
    }

    /// Takes one byte more, unless it doesn't continue the pattern: then nothing changes.
    pub fn feed(&mut self, byte: u8) -> bool
        ensures state { self.new
            ≡ (if takes self.old byte then loading_after self.old byte else self.old) }

        // Whatever bytes led here, this one is taken exactly where they and it are a pattern's.
        // Then these lead on.
        ensures unit { (f : Form) (u : List ℕ) → Leads f u self.old
            → result ≡ is_pattern f (u ++ byte ∷ []) }
        ensures leads { (f : Form) (u : List ℕ) → Leads f u self.old → result ≡ true
            → Leads f (u ++ byte ∷ []) self.new }
        ensures stays { result ≡ false → self.new ≡ self.old }
    {
        self.drawing.feed(byte)
    }

    /// Whether no byte continues the pattern.
    pub fn full(&self) -> bool
        ensures units { (f : Form) (u : List ℕ) → Leads f u self.now
            → (result ≡ true) ↔ ((a : ℕ) → is_pattern f (u ++ a ∷ []) ≡ false) }
        ensures grows { (f : Form) (a : ℕ) (u : List ℕ) → Leads f (a ∷ u) self.now
            → result ≡ not (pattern_grows f (a ∷ u)) }
    {
        self.drawing.is_full()
    }

    /// The pattern of the bytes taken, all 0 before the first one.
    pub fn pattern(&self) -> Pattern
        ensures unit { (f : Form) (u : List ℕ) → Leads f u self.now → result ≡ pattern f u }
        ensures valid { IsValidPattern result }
    {
        self.drawing.pattern()
    }
}
