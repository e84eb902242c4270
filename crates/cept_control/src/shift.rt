ghost use Rattle.std.specs.Prelude.{◌≡◌};
ghost use Rattle.cept_codes.specs.Command.{IsValidCommand};
ghost use Rattle.cept_profile.specs.Control.{effect};

use crate::control::Control;
use cept_codes::{Command, SetId};

/// Shifts and designations.
impl Control {
    pub(crate) fn lock_left(&mut self, g: u8)
        requires { IsValidCommand (Command.LockLeft g) }
        ensures { self.new ≡ (effect self.old (Command.LockLeft g)).0 }
    {
        self.working.sets.lock_left(g);
    }

    pub(crate) fn lock_right(&mut self, g: u8)
        requires { IsValidCommand (Command.LockRight g) }
        ensures { self.new ≡ (effect self.old (Command.LockRight g)).0 }
    {
        self.working.sets.lock_right(g);
    }

    pub(crate) fn single(&mut self, g: u8)
        requires { IsValidCommand (Command.Single g) }
        ensures { self.new ≡ (effect self.old (Command.Single g)).0 }
    {
        self.working.sets.single(g);
    }

    pub(crate) fn designate(&mut self, g: u8, set: SetId)
        requires { IsValidCommand (Command.Designate g set) }
        ensures { self.new ≡ (effect self.old (Command.Designate g set)).0 }
    {
        self.working.sets.designate(g, set);
    }
}
