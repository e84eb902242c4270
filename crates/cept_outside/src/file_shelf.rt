ghost use Rattle.std.specs.Prelude.{◌≡◌, ◌+◌, ◌-◌, ◌^◌, ◌<◌, ◌↔◌, min, length, is_some, IsSome, IsOk};
ghost use Rattle.std.specs.Prelude.{None, OnErr, false};
ghost use Rattle.std.specs.Io.KnownBytes.{ReadConsumes};
ghost use Rattle.cept_outside.specs.Causes.{HasCause};
ghost use Rattle.cept_outside.specs.FileShelf.{untold_shelf};
ghost use Rattle.cept_outside.specs.Machine.{bytes_ahead};
ghost use Rattle.cept_outside.specs.ShelfState.{Selects, Takes};
ghost use Rattle.cept_outside.specs.Untold.{untold_shelf_is_sound};

use crate::fault::Failed;
use crate::machine::Reader;
use crate::shelf::Shelf;
use std::rt::Files;

/// The files of the machine, under their paths. It tells nothing of bytes, and each error of the
/// machine is a fault. It reaches the machine through its reader alone.
#[derive(Drop)]
pub struct FileShelf<'a, R: Files> {
    reader: Reader<'a, R>,
    taken: u64,
}

impl<'a, R: Files> FileShelf<'a, R> {
    /// No file is selected.
    pub fn new(files: &'a R) -> FileShelf<'a, R>
        ensures state { ⟦<FileShelf<'a, R> as Shelf>⟧.state result ≡ untold_shelf 0 false 0 }
        ensures closed { result.reader.file ≡ None }
    {
        FileShelf {
            reader: Reader::new(files),
            taken: 0,
        }
    }
}

impl<R: Files> Shelf for FileShelf<'_, R> {
    ghost state = { λ shelf. untold_shelf shelf.taken shelf.reader.ended shelf.reader.faults.count };

    ghost counted = { λ shelf. shelf.reader.faults.counted };

    ghost sound = { λ shelf. untold_shelf_is_sound shelf.taken shelf.reader.ended shelf.reader.faults.count };

    fn select(&mut self, name: &str) -> Result<(), Failed>
        ensures selects { Selects (untold_shelf self.old.taken self.old.reader.ended self.old.reader.faults.count)
            name.now result
            (untold_shelf self.new.taken self.new.reader.ended self.new.reader.faults.count) }
        ensures cause { HasCause self.old.reader.faults.count self.new.reader.faults.count result }

        // A file is open after a success alone.
        ensures opened { IsOk result ↔ IsSome self.new.reader.file }

        // A failure counts exactly one fault.
        ensures once { OnErr result (self.new.reader.faults.count
            ≡ min (self.old.reader.faults.count + 1) (2 ^ 64 - 1)) }
    {
        self.taken = 0;
        self.reader.open(name)
    }

    fn take(&mut self, into: &mut [u8]) -> Result<usize, Failed>
        requires { 0 < length into.old }
        ensures takes { Takes (untold_shelf self.old.taken self.old.reader.ended self.old.reader.faults.count) into.new
            result
            (untold_shelf self.new.taken self.new.reader.ended self.new.reader.faults.count) }
        ensures cause { HasCause self.old.reader.faults.count self.new.reader.faults.count result }

        // Of a file that tells its bytes the next ones are moved, and none only at its end.
        ensures bytes { ReadConsumes (bytes_ahead R.File.remaining self.old.reader.file)
            (bytes_ahead R.File.remaining self.new.reader.file) result into.new }
        ensures open { is_some self.new.reader.file ≡ is_some self.old.reader.file }
        ensures closed { self.old.reader.file ≡ None → IsOk result }
    {
        let count = self.reader.read(into)?;
        self.taken = self.taken.saturating_add(count as u64);
        Ok(count)
    }
}
