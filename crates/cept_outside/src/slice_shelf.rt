ghost use Rattle.std.specs.Prelude.{◌≡◌, ◌+◌, ◌-◌, ◌^◌, ◌<◌, ◌≤◌, length, drop, find};
ghost use Rattle.std.specs.Prelude.{Some, None, IfSome, IsTrue};
ghost use Rattle.std.specs.Option.{ForSome};
ghost use Rattle.cept_outside.specs.Causes.{HasCause};
ghost use Rattle.cept_outside.specs.Exact.{SelectsKnown, TakesMost};
ghost use Rattle.cept_outside.specs.ShelfState.{Selects, Takes};
ghost use Rattle.cept_outside.specs.Slices.{bytes_in, chosen_bytes_in, is_named};

use crate::fault::Failed;
use crate::rack::move_front;
use crate::shelf::Shelf;

/// A file over a caller's bytes.
#[derive(Clone, Copy)]
pub struct SliceFile<'a> {
    pub name: &'a str,
    pub bytes: &'a [u8],
}

/// Files over a caller's slices, all told; of several of one name it has the first. It takes no
/// memory. A `select` of an unknown name fails and counts as missed, and no other call fails: its
/// faults are the files missed.
#[derive(Drop)]
pub struct SliceShelf<'a> {
    files: &'a [SliceFile<'a>],
    chosen: Option<SliceFile<'a>>,
    at: usize,
    ended: bool,
    missed: u64,
    ghost there: { ForSome chosen (λ file. bytes_in files.now file.name.now ≡ Some file.bytes.now) },
    ghost within: { at ≤ length (chosen_bytes_in chosen) },
    ghost end: { IsTrue ended → length (chosen_bytes_in chosen) ≤ at },
    ghost counted: { missed < 2 ^ 64 },
}

/// The first file with this name.
fn file_named<'a>(files: &[SliceFile<'a>], name: &str) -> Option<SliceFile<'a>>
    ensures { result ≡ find (is_named name.now) files.now }
{
    files.iter().copied().find(|file| file.name == name)
}

/// The file that a name selects.
fn select_file<'a>(files: &[SliceFile<'a>], name: &str) -> Option<SliceFile<'a>>
    ensures named { IfSome result (λ file. file.name.now ≡ name.now) }
    ensures there { IfSome result (λ file. bytes_in files.now name.now ≡ Some file.bytes.now) }
    ensures absent { result ≡ None → bytes_in files.now name.now ≡ None }
{
    file_named(files, name)
}

impl<'a> SliceShelf<'a> {
    ghost use Rattle.cept_outside.specs.SliceShelf.{slice_shelf_state};
    ghost use Rattle.cept_outside.specs.ShelfState.{empty_shelf};

    /// A shelf of these files, of which none is selected.
    pub fn new(files: &'a [SliceFile<'a>]) -> SliceShelf<'a>
        ensures { slice_shelf_state result ≡ record empty_shelf { files = Some (bytes_in files.now) } }
    {
        SliceShelf {
            files,
            chosen: None,
            at: 0,
            ended: false,
            missed: 0,
        }
    }

    /// The bytes of the selected file that weren't taken.
    fn left(&self) -> &[u8]
        ensures left { result.now ≡ drop self.now.at (chosen_bytes_in self.now.chosen) }
        ensures fits { self.now.at + length result.now ≤ usize.MAX }
    {
        match &self.chosen {
            Some(file) => &file.bytes[self.at..],
            None => &[],
        }
    }
}

impl<'a> Shelf for SliceShelf<'a> {
    ghost use Rattle.cept_outside.specs.SliceShelf.{slice_shelf_state};
    ghost use Rattle.cept_outside.specs.Sound.{slice_shelf_is_sound};

    ghost state = { slice_shelf_state };

    ghost counted = { λ shelf. shelf.counted };

    ghost sound = { slice_shelf_is_sound };

    fn select(&mut self, name: &str) -> Result<(), Failed>
        ensures selects { Selects (slice_shelf_state self.old) name.now result
            (slice_shelf_state self.new) }
        ensures cause { HasCause (slice_shelf_state self.old).faults
            (slice_shelf_state self.new).faults result }
        ensures known { SelectsKnown (slice_shelf_state self.old) name.now result
            (slice_shelf_state self.new) }
    {
        self.chosen = select_file(self.files, name);
        self.at = 0;
        self.ended = false;
        if self.chosen.is_some() {
            Ok(())
        } else {
            self.missed = self.missed.saturating_add(1);
            Err(Failed)
        }
    }

    fn take(&mut self, into: &mut [u8]) -> Result<usize, Failed>
        requires { 0 < length into.old }
        ensures takes { Takes (slice_shelf_state self.old) into.new result
            (slice_shelf_state self.new) }
        ensures cause { HasCause (slice_shelf_state self.old).faults
            (slice_shelf_state self.new).faults result }
        ensures most { TakesMost (slice_shelf_state self.old) into.old result into.new }
    {
        let count = move_front(self.left(), into);
        self.at += count;
        if count == 0 {
            self.ended = true;
        }
        Ok(count)
    }
}
