ghost use Rattle.std.specs.Prelude.{◌≡◌, ℕ, ◌<◌, min, List, [], ◌++◌, length, take, drop, Some};
ghost use Rattle.std.specs.Prelude.{None, IsOk, IfOk};
ghost use Rattle.std.specs.Prelude.{OnOk, OnErr, false, bytes_eq, if◌then◌else◌};
ghost use Rattle.cept_outside.specs.Causes.{HasCause};
ghost use Rattle.cept_outside.specs.ShelfState.{Selects, Takes, bytes_under, empty_shelf};

use crate::fault::Failed;
use crate::rack::Rack;
use crate::shelf::Shelf;
use cept_codes::NoMemory;
use std::alloc::Global;

/// Files in memory, all told, each name once. No call fails: a `select` of an unknown name succeeds
/// and leaves no name selected. Its counts of files missed and of faults are 0 forever.
#[derive(Drop)]
pub struct QuietShelf {
    rack: Rack,
}

impl QuietShelf {
    ghost use Rattle.cept_outside.specs.QuietShelf.{quiet_shelf_state};

    /// A shelf with no file.
    pub fn new(alloc: Global) -> QuietShelf
        ensures { quiet_shelf_state result ≡ empty_shelf }
    {
        QuietShelf {
            rack: Rack::new(alloc),
        }
    }

    /// Adds a file, in the place of one with this name, and ends the selection. After `NoMemory`
    /// the shelf is unchanged.
    pub fn add(&mut self, name: &str, bytes: &[u8]) -> Result<(), NoMemory>
        ensures added { OnOk result ((other : List ℕ)
            → bytes_under (quiet_shelf_state self.new) other
            ≡ (if bytes_eq name.now other then Some bytes.now
            else bytes_under (quiet_shelf_state self.old) other)) }
        ensures others { OnOk result (quiet_shelf_state self.new
            ≡ record (quiet_shelf_state self.old) {
              files = (quiet_shelf_state self.new).files;
              selected = Some None;
              left =
                  Some [];
              taken = 0;
              ended = false;
            }) }
        ensures err { OnErr result (quiet_shelf_state self.new ≡ quiet_shelf_state self.old) }
    {
        self.rack.add(name, bytes)
    }
}

impl Shelf for QuietShelf {
    ghost use Rattle.cept_outside.specs.QuietShelf.{quiet_shelf_state};
    ghost use Rattle.cept_outside.specs.Counted.{none_counted};
    ghost use Rattle.cept_outside.specs.Sound.{rack_state_is_sound};

    ghost state = { quiet_shelf_state };

    ghost counted = { λ _. none_counted };

    ghost sound = { λ shelf. rack_state_is_sound shelf.rack 0 0 };

    fn select(&mut self, name: &str) -> Result<(), Failed>
        ensures selects { Selects (quiet_shelf_state self.old) name.now result
            (quiet_shelf_state self.new) }
        ensures cause { HasCause (quiet_shelf_state self.old).faults
            (quiet_shelf_state self.new).faults result }
        ensures never_fails { IsOk result }
    {
        // A name that isn't there leaves none selected, and that is no failure.
        let _ = self.rack.select(name);
        Ok(())
    }

    fn take(&mut self, into: &mut [u8]) -> Result<usize, Failed>
        requires { 0 < length into.old }
        ensures takes { Takes (quiet_shelf_state self.old) into.new result
            (quiet_shelf_state self.new) }
        ensures cause { HasCause (quiet_shelf_state self.old).faults
            (quiet_shelf_state self.new).faults result }
        ensures never_fails { IsOk result }
        ensures most { (left : List ℕ) → (quiet_shelf_state self.old).left ≡ Some left
            → IfOk result (λ n. (n ≡ min (length left) (length into.old))
            × (into.new ≡ take n left ++ drop n into.old)) }
    {
        Ok(self.rack.take(into))
    }
}
