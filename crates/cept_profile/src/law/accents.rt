//! Laws of accents and single shifts: how long they wait.
ghost use Rattle.std.specs.Prelude.{◌≡◌, ℕ, false, Some, None};
ghost use Rattle.cept_codes.specs.declared.command.Command.{Command};
ghost use Rattle.cept_codes.specs.declared.glyph.Glyph.{Glyph};
ghost use Rattle.cept_profile.specs.Control.{ControlState, Working, control_after, leaves_accent};
ghost use Rattle.cept_profile.specs.Writing.{sign_with_accent, graphic_read};

use cept_codes::{Command, Read};

/// An accent waits for the next sign: a sign of set P takes it, and after any sign none waits. NUL
/// and bytes that are passed over change nothing, and every other command drops it. A break of the
/// service keeps it with the state before it, and the end brings it back.
pub fn accents_wait()
    ensures waits { (s : ControlState) (byte code : ℕ)
        → graphic_read s byte ≡ Read.Accent code
        → (control_after s (Command.Graphic byte)).working.accent ≡ Some code }
    ensures taken { (s : ControlState) (byte : ℕ) (g : Glyph)
        → graphic_read s byte ≡ Read.Glyph g
        → (control_after s (Command.Graphic byte)).working.last
        ≡ Some (sign_with_accent g.set g.code s.working.accent) }
    ensures spent { (s : ControlState) (byte : ℕ) (g : Glyph)
        → graphic_read s byte ≡ Read.Glyph g
        → (control_after s (Command.Graphic byte)).working.accent ≡ None }
    ensures nul { (s : ControlState) → control_after s Command.Nul ≡ s }
    ensures skipped { (s : ControlState) → control_after s Command.Skipped ≡ s }
    ensures dropped { (s : ControlState) (command : Command) → leaves_accent command ≡ false
        → (command ≡ Command.ServiceEnd → s.kept ≡ None)
        → (control_after s command).working.accent ≡ None }
    ensures kept { (s : ControlState) (row : ℕ) → s.kept ≡ None
        → (control_after s (Command.ServiceBreak row)).kept ≡ Some s.working }
    ensures back { (s : ControlState) (w : Working) → s.kept ≡ Some w
        → (control_after s Command.ServiceEnd).working.accent ≡ w.accent }
{}

/// A single shift waits, and the next graphic byte spends it, whatever that byte gives, and changes
/// no other of the sets. A later shift replaces one that waits.
pub fn single_shifts_wait()
    ensures waits { (s : ControlState) (g : ℕ)
        → (control_after s (Command.Single g)).working.sets.single ≡ Some g }
    ensures spent { (s : ControlState) (byte : ℕ)
        → (control_after s (Command.Graphic byte)).working.sets
        ≡ record s.working.sets { single = None } }
    ensures replaced { (s : ControlState) (g h : ℕ)
        → control_after (control_after s (Command.Single g)) (Command.Single h)
        ≡ control_after s (Command.Single h) }
{}
