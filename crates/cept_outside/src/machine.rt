//! Readers and writers of the machine. A count of faults rises at an error that the machine
//! answers, or at a write of which the machine takes nothing, and nowhere else.
ghost use Rattle.std.specs.Prelude.{◌≡◌, ◌+◌, ◌-◌, ◌^◌, ◌<◌, ◌≤◌, ◌↔◌, min, length, None, Ok};
ghost use Rattle.std.specs.Prelude.{false, true};
ghost use Rattle.std.specs.Prelude.{is_some, IsSome, IsOk, IsErr, IfOk, OnOk, OnErr};
ghost use Rattle.std.specs.Io.KnownBytes.{Keeps, ReadConsumes, WriteAppends};
ghost use Rattle.cept_outside.specs.Causes.{HasCause};
ghost use Rattle.cept_outside.specs.Machine.{bytes_ahead};
ghost use Rattle.cept_outside.specs.SinkState.{one_more};

use crate::fault::Failed;
use std::fs;
use std::io::{self, Read, Write};
use std::rt::Files;

/// A count of faults, up to the greatest u64.
#[derive(Drop)]
pub struct Faults {
    count: u64,
    ghost counted: { count < 2 ^ 64 },
}

impl Faults {
    fn new() -> Faults
        ensures { result.count ≡ 0 }
    {
        Faults { count: 0 }
    }

    /// Counts a fault.
    fn rise(&mut self) -> Failed
        ensures { self.new.count ≡ min (self.old.count + 1) (2 ^ 64 - 1) }
    {
        self.count = self.count.saturating_add(1);
        Failed
    }

    /// Hands on what the machine answered, and counts an error.
    fn judge<X>(&mut self, answer: io::Result<X>) -> Result<X, Failed>
        ensures value { IfOk answer (λ x. result ≡ Ok x) }
        ensures failed { OnErr answer (IsErr result) }
        ensures cause { HasCause self.old.count self.new.count result }
        ensures once { OnErr result (self.new.count ≡ min (self.old.count + 1) (2 ^ 64 - 1)) }
    {
        match answer {
            Ok(value) => Ok(value),
            Err(_) => Err(self.rise()),
        }
    }
}

/// The files of the machine, the one of them that is open, if one is, and whether a read since has
/// answered that nothing is left. Who holds a reader reaches the files through it alone.
#[derive(Drop)]
pub struct Reader<'a, R: Files> {
    files: &'a R,
    file: Option<R::File>,
    ended: bool,
    faults: Faults,
}

impl<'a, R: Files> Reader<'a, R> {
    /// No file is open.
    pub fn new(files: &'a R) -> Reader<'a, R>
        ensures closed { result.file ≡ None }
        ensures ended { result.ended ≡ false }
        ensures faults { result.faults.count ≡ 0 }
    {
        Reader {
            files,
            file: None,
            ended: false,
            faults: Faults::new(),
        }
    }

    /// Closes the file that was open, and opens the one of this name. A failure counts exactly one
    /// fault, and leaves none open.
    pub fn open(&mut self, name: &str) -> Result<(), Failed>
        ensures opened { IsOk result ↔ IsSome self.new.file }
        ensures ended { self.new.ended ≡ false }
        ensures cause { HasCause self.old.faults.count self.new.faults.count result }
        ensures once { OnErr result (self.new.faults.count
            ≡ min (self.old.faults.count + 1) (2 ^ 64 - 1)) }
    {
        self.file = None;
        self.ended = false;
        let answer = fs::open(self.files, name);
        self.file = Some(self.faults.judge(answer)?);
        Ok(())
    }

    /// Reads the next bytes of the open file to the front of the slice, none where no file is open.
    pub fn read(&mut self, into: &mut [u8]) -> Result<usize, Failed>
        ensures within { IfOk result (λ n. n ≤ length into.new) }
        ensures bytes { ReadConsumes (bytes_ahead R.File.remaining self.old.file)
            (bytes_ahead R.File.remaining self.new.file)
            result into.new }
        ensures open { is_some self.new.file ≡ is_some self.old.file }
        ensures closed { self.old.file ≡ None → IsOk result }
        ensures ended { IfOk result (λ n. n ≡ 0 → self.new.ended ≡ true) }
        ensures goes_on { IfOk result (λ n. 0 < n → self.new.ended ≡ self.old.ended) }
        ensures failed { OnErr result (self.new.ended ≡ self.old.ended) }
        ensures cause { HasCause self.old.faults.count self.new.faults.count result }
    {
        let count = match &mut self.file {
            Some(file) => {
                let answer = file.read(into);
                self.faults.judge(answer)?
            }
            None => 0,
        };
        if count == 0 {
            self.ended = true;
        }
        Ok(count)
    }
}

/// A writer, whether bytes were written since its last flush that succeeded, and how many did, up to
/// the greatest u64.
#[derive(Drop)]
pub struct Writer<W> {
    out: W,
    unflushed: bool,
    flushes: u64,
    faults: Faults,
}

impl<W: Write> Writer<W> {
    /// Nothing was written.
    pub fn new(out: W) -> Writer<W>
        ensures out { result.out ≡ out }
        ensures unflushed { result.unflushed ≡ false }
        ensures flushes { result.flushes ≡ 0 }
        ensures faults { result.faults.count ≡ 0 }
    {
        Writer {
            out,
            unflushed: false,
            flushes: 0,
            faults: Faults::new(),
        }
    }

    /// Writes the front of the bytes, at least one. That the writer takes none of them is a fault.
    pub fn write(&mut self, bytes: &[u8]) -> Result<usize, Failed>
        requires { 0 < length bytes.now }
        ensures some { IfOk result (λ n. 1 ≤ n) }
        ensures within { IfOk result (λ n. n ≤ length bytes.now) }
        ensures appends { WriteAppends (W.contents self.old.out) (W.contents self.new.out) result
            bytes.now }
        ensures unflushed { OnOk result (self.new.unflushed ≡ true) }
        ensures failed { OnErr result (self.new.unflushed ≡ self.old.unflushed) }
        ensures flushes { self.new.flushes ≡ self.old.flushes }
        ensures cause { HasCause self.old.faults.count self.new.faults.count result }
    {
        let answer = self.out.write(bytes);
        let count = self.faults.judge(answer)?;
        if count == 0 {
            return Err(self.faults.rise());
        }
        self.unflushed = true;
        Ok(count)
    }

    /// Flushes the writer.
    pub fn flush(&mut self) -> Result<(), Failed>
        ensures kept { Keeps (W.contents self.old.out) (W.contents self.new.out) }
        ensures flushed { OnOk result ((self.new.unflushed ≡ false)
            × (self.new.flushes ≡ one_more self.old.flushes)) }
        ensures failed { OnErr result ((self.new.unflushed ≡ self.old.unflushed)
            × (self.new.flushes ≡ self.old.flushes)) }
        ensures cause { HasCause self.old.faults.count self.new.faults.count result }
    {
        let answer = self.out.flush();
        self.faults.judge(answer)?;
        self.unflushed = false;
        self.flushes = self.flushes.saturating_add(1);
        Ok(())
    }
}
