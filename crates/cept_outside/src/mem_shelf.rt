ghost use Rattle.std.specs.Prelude.{◌≡◌, ℕ, ◌+◌, ◌-◌, ◌^◌, ◌<◌, ◌⊎◌, ◌↔◌, min, List, [], ◌++◌};
ghost use Rattle.std.specs.Prelude.{length, take, drop};
ghost use Rattle.std.specs.Prelude.{Some, None, is_some, IsErr, IfOk, OnOk, OnErr, Contains};
ghost use Rattle.std.specs.Prelude.{false, bytes_eq, if◌then◌else◌};
ghost use Rattle.cept_outside.specs.Causes.{HasCause};
ghost use Rattle.cept_outside.specs.Calls.{faults_of, numbers_with};
ghost use Rattle.cept_outside.specs.ShelfState.{Selects, Takes, bytes_under, empty_shelf};

use crate::calls::Calls;
use crate::fault::Failed;
use crate::plain_shelf::PlainShelf;
use crate::shelf::Shelf;
use cept_codes::NoMemory;
use std::alloc::Global;

/// Files in memory, all told. A call fails where its number was given to `fail_at`, counted from 1
/// over `select` and `take`. A `select` of an unknown name fails too and counts as missed. No other
/// call fails.
#[derive(Drop)]
pub struct MemShelf {
    files: PlainShelf,
    calls: Calls,
}

impl MemShelf {
    ghost use Rattle.cept_outside.specs.MemShelf.{mem_shelf_state, mem_shelf_count};
    ghost use Rattle.cept_outside.specs.MemShelf.{mem_shelf_numbers};

    /// A shelf with no file, whose calls don't fail.
    pub fn new(alloc: Global) -> MemShelf
        ensures state { mem_shelf_state result ≡ empty_shelf }
        ensures count { mem_shelf_count result ≡ 0 }
        ensures numbers { mem_shelf_numbers result ≡ [] }
    {
        MemShelf {
            files: PlainShelf::new(alloc),
            calls: Calls::new(),
        }
    }

    /// Adds a file, in the place of one with this name, and ends the selection. After `NoMemory`
    /// the shelf is unchanged.
    pub fn add(&mut self, name: &str, bytes: &[u8]) -> Result<(), NoMemory>
        ensures added { OnOk result ((other : List ℕ) → bytes_under (mem_shelf_state self.new) other
            ≡ (if bytes_eq name.now other then Some bytes.now
            else bytes_under (mem_shelf_state self.old) other)) }
        ensures others { OnOk result (mem_shelf_state self.new ≡ record (mem_shelf_state self.old) {
          files = (mem_shelf_state self.new).files;
          selected = Some None;
          left =
              Some [];
          taken = 0;
          ended = false;
        }) }
        ensures err { OnErr result (mem_shelf_state self.new ≡ mem_shelf_state self.old) }
        ensures count { mem_shelf_count self.new ≡ mem_shelf_count self.old }
        ensures numbers { mem_shelf_numbers self.new ≡ mem_shelf_numbers self.old }
    {
        self.files.add(name, bytes)
    }

    /// Lets the call with this number fail, counted from 1 over `select` and `take`. Sixteen
    /// numbers are kept, and further ones are ignored.
    pub fn fail_at(&mut self, call: u32)
        ensures numbers { mem_shelf_numbers self.new
            ≡ numbers_with (mem_shelf_numbers self.old) call }
        ensures count { mem_shelf_count self.new ≡ mem_shelf_count self.old }
        ensures others { mem_shelf_state self.new
            ≡ record (mem_shelf_state self.old) {
              faults = faults_of (mem_shelf_numbers self.new)
                  (mem_shelf_count self.new) (mem_shelf_state self.new).missed;
            } }
    {
        self.calls.keep(call);
    }
}

impl Shelf for MemShelf {
    ghost use Rattle.cept_outside.specs.MemShelf.{mem_shelf_state, mem_shelf_count};
    ghost use Rattle.cept_outside.specs.MemShelf.{mem_shelf_numbers};
    ghost use Rattle.cept_outside.specs.MemShelf.{IsCountedTake};
    ghost use Rattle.cept_outside.specs.Counted.{faults_counted};
    ghost use Rattle.cept_outside.specs.Sound.{rack_state_is_sound};

    ghost state = { mem_shelf_state };

    ghost counted = { λ shelf. faults_counted shelf.calls.numbers.items shelf.calls.count shelf.files.missed };

    ghost sound = { λ shelf. rack_state_is_sound shelf.files.rack _ _ };

    fn select(&mut self, name: &str) -> Result<(), Failed>
        ensures selects { Selects (mem_shelf_state self.old) name.now result
            (mem_shelf_state self.new) }
        ensures cause { HasCause (mem_shelf_state self.old).faults
            (mem_shelf_state self.new).faults result }

        // It fails exactly so.
        ensures fails { IsErr result
            ↔ (Contains (mem_shelf_numbers self.old) (mem_shelf_count self.old + 1)
            ⊎ (bytes_under (mem_shelf_state self.old) name.now ≡ None)) }
        ensures missed { (mem_shelf_state self.new).missed
            ≡ (if is_some (bytes_under (mem_shelf_state self.old) name.now)
            then (mem_shelf_state self.old).missed
            else min ((mem_shelf_state self.old).missed + 1) (2 ^ 64 - 1)) }
        ensures counted { IsCountedTake self.old self.new }
    {
        let fails = self.calls.next();
        self.files.select(name)?;
        if fails {
            self.files.deselect();
            return Err(Failed);
        }
        Ok(())
    }

    fn take(&mut self, into: &mut [u8]) -> Result<usize, Failed>
        requires { 0 < length into.old }
        ensures takes { Takes (mem_shelf_state self.old) into.new result (mem_shelf_state self.new) }
        ensures cause { HasCause (mem_shelf_state self.old).faults
            (mem_shelf_state self.new).faults result }

        // It fails exactly so, and takes as much as there is and fits.
        ensures fails { IsErr result
            ↔ Contains (mem_shelf_numbers self.old) (mem_shelf_count self.old + 1) }
        ensures most { (left : List ℕ) → (mem_shelf_state self.old).left ≡ Some left
            → IfOk result (λ n. (n ≡ min (length left) (length into.old))
            × (into.new ≡ take n left ++ drop n into.old)) }
        ensures untouched { OnErr result (into.new ≡ into.old) }
        ensures counted { IsCountedTake self.old self.new }
    {
        if self.calls.next() {
            return Err(Failed);
        }
        self.files.take(into)
    }
}
