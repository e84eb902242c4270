ghost use Rattle.std.specs.Prelude.{◌≡◌, ℕ, ◌+◌, ◌-◌, ◌<◌, ◌≤◌, ◌↔◌, min, List, [], ◌++◌, length};
ghost use Rattle.std.specs.Prelude.{take, drop, Some};
ghost use Rattle.std.specs.Prelude.{None, IsTrue, IsSome, IfOk, OnOk, OnErr, position};
ghost use Rattle.std.specs.Prelude.{string_bytes};
ghost use Rattle.std.specs.Prelude.{false, true, bytes_eq, if◌then◌else◌};
ghost use Rattle.std.specs.Option.{ForSome};
ghost use Rattle.std.proofs.Props.{props};
ghost use Rattle.cept_outside.specs.Files.{has_name, bytes_of, chosen_file, chosen_bytes};

use cept_codes::NoMemory;
use std::alloc::Global;

/// A file in memory.
#[derive(Drop)]
pub struct StoredFile {
    name: String,
    bytes: Vec<u8>,
}

/// Files in memory, each name once, and the place of the one that is selected with the count of its
/// bytes taken, and whether a take has answered that none are left.
#[derive(Drop)]
pub struct Rack {
    files: Vec<StoredFile>,
    selected: Option<usize>,
    at: usize,
    ended: bool,
    ghost there: { ForSome selected (λ place. place < length files.items) },
    ghost within: { at ≤ length (chosen_bytes files.items selected) },
    ghost end: { IsTrue ended → length (chosen_bytes files.items selected) ≤ at },
    ghost named: { ForSome (chosen_file files.items selected)
        (λ file. bytes_of files.items (string_bytes file.name) ≡ Some file.bytes.items) } by { Prim.hlevel props },
}

/// The place of the file with this name.
fn place_of(files: &[StoredFile], name: &str) -> Option<usize>
    ensures { result ≡ position (has_name name.now) files.now }
{
    files.iter().position(|file| file.name.as_str() == name)
}

/// A file with this name and these bytes.
fn stored(alloc: Global, name: &str, bytes: &[u8]) -> Result<StoredFile, NoMemory>
    ensures name { IfOk result (λ file. string_bytes file.name ≡ name.now) }
    ensures bytes { IfOk result (λ file. file.bytes.items ≡ bytes.now) }
{
    Ok(StoredFile {
        name: String::from_str(alloc, name)?,
        bytes: Vec::from_slice(alloc, bytes)?,
    })
}

/// Puts the file in the place of the one with its name, or after the others.
fn put_file(files: &mut Vec<StoredFile>, name: &str, file: StoredFile) -> Result<(), NoMemory>
    requires { string_bytes file.name ≡ name.now }
    ensures ok { OnOk result ((other : List ℕ) → bytes_of files.new.items other
        ≡ (if bytes_eq name.now other then Some file.bytes.items
        else bytes_of files.old.items other)) }
    ensures err { OnErr result (files.new.items ≡ files.old.items) }
{
    match place_of(files.as_slice(), name) {
        Some(place) => {
            files[place] = file;
            Ok(())
        }
        None => {
            files.push(file)?;
            Ok(())
        }
    }
}

/// Moves bytes from the front of a list to the front of a slice, as many as there are and fit.
pub(crate) fn move_front(from: &[u8], into: &mut [u8]) -> usize
    ensures count { result ≡ min (length from.now) (length into.old) }
    ensures moved { into.new ≡ take result from.now ++ drop result into.old }
{
    let count = from.len().min(into.len());
    into[..count].copy_from_slice(&from[..count]);
    count
}

impl Rack {
    ghost use Rattle.cept_outside.specs.Rack.{BeginsAnew, name_of, left_of};

    /// No file, and none selected.
    pub fn new(alloc: Global) -> Rack
        ensures files { result.files.items ≡ [] }
        ensures unselected { result.selected ≡ None }
        ensures start { result.at ≡ 0 }
        ensures ended { result.ended ≡ false }
    {
        Rack {
            files: Vec::new(alloc),
            selected: None,
            at: 0,
            ended: false,
        }
    }

    /// Puts a file with this name and these bytes in the place of the one with that name, or beside
    /// the others, and ends the selection.
    pub fn add(&mut self, name: &str, bytes: &[u8]) -> Result<(), NoMemory>
        ensures added { OnOk result ((other : List ℕ) → bytes_of self.new.files.items other
            ≡ (if bytes_eq name.now other then Some bytes.now
            else bytes_of self.old.files.items other)) }
        ensures deselected { OnOk result ((self.new.selected ≡ None) × (self.new.at ≡ 0)
            × (self.new.ended ≡ false)) }
        ensures files { OnErr result (self.new.files.items ≡ self.old.files.items) }
        ensures selection { OnErr result ((self.new.selected ≡ self.old.selected)
            × (self.new.at ≡ self.old.at) × (self.new.ended ≡ self.old.ended)) }
    {
        let file = stored(*self.files.allocator(), name, bytes)?;
        put_file(&mut self.files, name, file)?;
        self.selected = None;
        self.at = 0;
        self.ended = false;
        Ok(())
    }

    /// Selects the file with this name, or none, and answers whether there is one.
    pub fn select(&mut self, name: &str) -> bool
        ensures anew { BeginsAnew self.old self.new }
        ensures found { IsTrue result ↔ IsSome (bytes_of self.old.files.items name.now) }
        ensures left { (bytes : List ℕ) → bytes_of self.old.files.items name.now ≡ Some bytes
            → (name_of self.new ≡ Some name.now) × (left_of self.new ≡ bytes) }
        ensures absent { bytes_of self.old.files.items name.now ≡ None
            → (name_of self.new ≡ None) × (left_of self.new ≡ []) }
    {
        self.selected = place_of(self.files.as_slice(), name);
        self.at = 0;
        self.ended = false;
        self.selected.is_some()
    }

    /// Ends the selection.
    pub fn deselect(&mut self)
        ensures anew { BeginsAnew self.old self.new }
        ensures none { (name_of self.new ≡ None) × (left_of self.new ≡ []) }
    {
        self.selected = None;
        self.at = 0;
        self.ended = false;
    }

    /// Takes as many of the selected bytes as there are and fit.
    pub fn take(&mut self, into: &mut [u8]) -> usize
        requires { 0 < length into.old }
        ensures files { self.new.files.items ≡ self.old.files.items }
        ensures name { name_of self.new ≡ name_of self.old }
        ensures count { result ≡ min (length (left_of self.old)) (length into.old) }
        ensures ended { result ≡ 0 → self.new.ended ≡ true }
        ensures goes_on { 0 < result → self.new.ended ≡ self.old.ended }
        ensures moved { into.new ≡ take result (left_of self.old) ++ drop result into.old }
        ensures left { left_of self.new ≡ drop result (left_of self.old) }
        ensures at { self.new.at ≡ self.old.at + result }
    {
        let count = match self.selected {
            Some(place) => move_front(&self.files[place].bytes[self.at..], into),
            None => 0,
        };
        self.at += count;
        if count == 0 {
            self.ended = true;
        }
        count
    }
}
