//! The real file and output, and a file and an output whose calls fail.

use crate::disk::Disk;
use arrayvec::ArrayVec;
use cept_outside::{FileShelf, Shelf, Sink, StdSink};
use std::cell::Cell;
use std::io::{self, Write};
use std::test::Fail;
use std::{fs, process};

/// Whether a file is selected.
fn selects<F: Shelf>(shelf: &mut F, name: &str) -> bool {
    shelf.select(name).is_ok()
}

/// Whether just these bytes are taken into room for eight.
fn takes<F: Shelf>(shelf: &mut F, want: &[u8]) -> bool {
    let mut into = [0; 8];
    match shelf.take(&mut into) {
        Ok(count) => count <= 8 && &into[..count] == want,
        Err(_) => false,
    }
}

/// Whether all of a piece is put.
fn puts<T: Sink>(sink: &mut T, piece: &[u8]) -> bool {
    if piece.is_empty() {
        return false;
    }
    match sink.put(piece) {
        Ok(count) => count == piece.len(),
        Err(_) => false,
    }
}

/// Whether all that was put is flushed.
fn flushes<T: Sink>(sink: &mut T) -> bool {
    sink.flush().is_ok()
}

/// A file of the machine is selected, and its bytes are taken up to its end.
fn takes_all<F: Shelf>(shelf: &mut F, name: &str, bytes: &[u8]) -> bool {
    selects(shelf, name) && takes(shelf, bytes) && takes(shelf, b"")
}

#[test]
fn takes_a_file_of_the_machine(rt: HostRuntime) -> Result<(), Fail> {
    let path = format!(in rt.alloc(); "/tmp/cept_outside_{}", process::id(rt.process()))?;
    let name = path.as_str();
    let mut shelf = FileShelf::new(&rt);
    fs::write(&rt, name, b"page".as_slice())?;
    let is_taken = takes_all(&mut shelf, name, b"page");
    fs::remove_file(&rt, name)?;
    assert!(rt; is_taken);
    assert!(rt; !selects(&mut shelf, name));
    assert!(rt; takes(&mut shelf, b""));
    Ok(())
}

#[test]
fn puts_to_standard_output(rt: HostRuntime) {
    let mut sink = StdSink::new(io::writer(&rt));
    assert!(rt; puts(&mut sink, b"put\n"));
    assert!(rt; sink.hand_on().is_ok());
    assert!(rt; flushes(&mut sink));
}

/// A file that can't be opened has no bytes.
fn is_missed<F: Shelf>(shelf: &mut F) -> bool {
    takes(shelf, b"") && !selects(shelf, "page") && takes(shelf, b"")
}

/// A file whose second read fails goes on at the third.
fn goes_on<F: Shelf>(shelf: &mut F) -> bool {
    let first = selects(shelf, "page") && takes(shelf, b"11");
    let mut into = [0; 8];
    first && shelf.take(&mut into).is_err() && takes(shelf, b"33")
}

#[test]
fn an_error_of_the_machine_is_no_end(rt: HostRuntime) {
    let disk = Disk {
        opens: Cell::new(0),
    };
    let mut shelf = FileShelf::new(&disk);
    assert!(rt; is_missed(&mut shelf));
    assert!(rt; disk.opens.get() == 1);
    assert!(rt; goes_on(&mut shelf));
    assert!(rt; disk.opens.get() == 2);
}

/// A writer that takes three bytes a call at most, and fails at some calls, counted over writes and
/// flushes.
#[derive(Drop)]
struct Short {
    bytes: ArrayVec<u8, 16>,
    calls: u8,
    fails: [u8; 2],
}

impl Short {
    fn next(&mut self) -> io::Result<()> {
        self.calls = self.calls.saturating_add(1);
        if self.fails.contains(&self.calls) {
            return Err(io::Error::from(io::ErrorKind::Other));
        }
        Ok(())
    }
}

impl Write for Short {
    fn write(&mut self, buf: &[u8]) -> io::Result<usize> {
        self.next()?;
        let count = buf.len().min(3).min(self.bytes.remaining_capacity());
        self.bytes.try_extend_from_slice(&buf[..count]).unwrap();
        Ok(count)
    }

    fn flush(&mut self) -> io::Result<()> {
        self.next()
    }
}

#[test]
fn a_short_write_is_no_fault(rt: HostRuntime) {
    let mut out = Short {
        bytes: ArrayVec::new(),
        calls: 0,
        fails: [2, 5],
    };
    let mut sink = StdSink::new(&mut out);
    assert!(rt; puts(&mut sink, b"abcdefgh"));
    assert!(rt; !flushes(&mut sink));
    assert!(rt; sink.hand_on().is_ok());
    assert!(rt; !flushes(&mut sink));
    assert!(rt; flushes(&mut sink));
    assert!(rt; out.calls == 6);
    assert!(rt; out.bytes.as_slice() == b"abcdefgh".as_slice());
}
