ghost use Rattle.std.specs.Prelude.{◌<◌, ◌^◌, length};
ghost use Rattle.cept_outside.specs.Causes.{HasCause};
ghost use Rattle.cept_outside.specs.ShelfState.{ShelfState, Selects, Takes, IsSound};

use crate::fault::Failed;

/// Files under names, of which one is selected at a time and taken from its front.
pub trait Shelf {
    /// The files, the selection with the bytes left of it, whether a take has answered that none are
    /// left, and the counts of bytes taken, files missed and faults.
    ghost state: { Self → ShelfState };

    /// Ends a former selection and selects the file of this name, from its start. After a failure,
    /// and where the shelf knows that it has no such file, no name is selected. Either way its end
    /// isn't known any more.
    fn select(&mut self, name: &str) -> Result<(), Failed>
        ensures selects { Selects (state self.old) name.now result (state self.new) }
        ensures cause { HasCause (state self.old).faults (state self.new).faults result };

    /// Moves selected bytes to the front of the slice and answers how many. Zero means that none
    /// are left: from then on the end of the selection is known. A failure moves nothing and keeps
    /// the selection, and what is known of its end.
    fn take(&mut self, into: &mut [u8]) -> Result<usize, Failed>
        requires { 0 < length into.old }
        ensures takes { Takes (state self.old) into.new result (state self.new) }
        ensures cause { HasCause (state self.old).faults (state self.new).faults result };

    /// A count of faults is a u64.
    ghost counted: { (s : Self) → (state s).faults < 2 ^ 64 };

    /// What a shelf tells of its selection agrees with its files.
    ghost sound: { (s : Self) → IsSound (state s) };
}
