ghost use Rattle.std.specs.Prelude.{◌≡◌, ℕ, ◌+◌, ◌-◌, ◌^◌, ◌<◌, ◌↔◌, min, List, [], ◌++◌};
ghost use Rattle.std.specs.Prelude.{length, take, drop};
ghost use Rattle.std.specs.Prelude.{Some, None, is_some, IsOk, IsErr, IfOk, OnOk, OnErr};
ghost use Rattle.std.specs.Prelude.{false, bytes_eq, if◌then◌else◌};
ghost use Rattle.cept_outside.specs.Causes.{HasCause};
ghost use Rattle.cept_outside.specs.ShelfState.{Selects, Takes, bytes_under};
ghost use Rattle.cept_outside.specs.ShelfState.{empty_shelf};

use crate::fault::Failed;
use crate::rack::Rack;
use crate::shelf::Shelf;
use cept_codes::NoMemory;
use std::alloc::Global;

/// Files in memory, all told. A `select` of an unknown name fails and counts as missed, and no other
/// call fails: its faults are the files missed.
#[derive(Drop)]
pub struct PlainShelf {
    rack: Rack,
    missed: u64,
    ghost counted: { missed < 2 ^ 64 },
}

impl PlainShelf {
    ghost use Rattle.cept_outside.specs.PlainShelf.{plain_shelf_state};

    /// A shelf with no file.
    pub fn new(alloc: Global) -> PlainShelf
        ensures { plain_shelf_state result ≡ empty_shelf }
    {
        PlainShelf {
            rack: Rack::new(alloc),
            missed: 0,
        }
    }

    /// Adds a file, in the place of one with this name, and ends the selection. After `NoMemory`
    /// the shelf is unchanged.
    pub fn add(&mut self, name: &str, bytes: &[u8]) -> Result<(), NoMemory>
        ensures added { OnOk result ((other : List ℕ)
            → bytes_under (plain_shelf_state self.new) other
            ≡ (if bytes_eq name.now other then Some bytes.now
            else bytes_under (plain_shelf_state self.old) other)) }
        ensures others { OnOk result (plain_shelf_state self.new
            ≡ record (plain_shelf_state self.old) {
              files = (plain_shelf_state self.new).files;
              selected = Some None;
              left =
                  Some [];
              taken = 0;
              ended = false;
            }) }
        ensures err { OnErr result (plain_shelf_state self.new ≡ plain_shelf_state self.old) }
    {
        self.rack.add(name, bytes)
    }

    /// Ends the selection.
    pub(crate) fn deselect(&mut self)
        ensures { plain_shelf_state self.new
            ≡ record (plain_shelf_state self.old) {
              selected = Some None;
              left =
                  Some [];
              taken = 0;
              ended = false;
            } }
    {
        self.rack.deselect();
    }
}

impl Shelf for PlainShelf {
    ghost use Rattle.cept_outside.specs.PlainShelf.{plain_shelf_state};
    ghost use Rattle.cept_outside.specs.Sound.{rack_state_is_sound};

    ghost state = { plain_shelf_state };

    ghost counted = { λ shelf. shelf.counted };

    ghost sound = { λ shelf. rack_state_is_sound shelf.rack _ _ };

    fn select(&mut self, name: &str) -> Result<(), Failed>
        ensures selects { Selects (plain_shelf_state self.old) name.now result
            (plain_shelf_state self.new) }
        ensures cause { HasCause (plain_shelf_state self.old).faults
            (plain_shelf_state self.new).faults result }

        // It fails exactly so.
        ensures fails { IsErr result ↔ (bytes_under (plain_shelf_state self.old) name.now ≡ None) }
        ensures missed { (plain_shelf_state self.new).missed
            ≡ (if is_some (bytes_under (plain_shelf_state self.old) name.now)
            then (plain_shelf_state self.old).missed
            else min ((plain_shelf_state self.old).missed + 1) (2 ^ 64 - 1)) }
    {
        if self.rack.select(name) {
            Ok(())
        } else {
            self.missed = self.missed.saturating_add(1);
            Err(Failed)
        }
    }

    fn take(&mut self, into: &mut [u8]) -> Result<usize, Failed>
        requires { 0 < length into.old }
        ensures takes { Takes (plain_shelf_state self.old) into.new result
            (plain_shelf_state self.new) }
        ensures cause { HasCause (plain_shelf_state self.old).faults
            (plain_shelf_state self.new).faults result }

        // It never fails, and takes as much as there is and fits.
        ensures never_fails { IsOk result }
        ensures most { (left : List ℕ) → (plain_shelf_state self.old).left ≡ Some left
            → IfOk result (λ n. (n ≡ min (length left) (length into.old))
            × (into.new ≡ take n left ++ drop n into.old)) }
    {
        Ok(self.rack.take(into))
    }
}
