//! Runs, as the tests take them. No function here has a clause: a test sees what a run left, and nothing of
//! the contract of `run`.

use cept_outside::{MemShelf, MemSink, Shelf, Sink};
use cept_repaint::{Glass, GridGlass};
use cept_run::run::{Status, run};
use std::alloc::{AllocError, Global};
use std::test::Fail;

/// These words, as a program is given them.
pub(crate) fn words(alloc: Global, all: &[&str]) -> Result<Vec<String>, AllocError> {
    let mut words = Vec::new(alloc);
    for word in all {
        words.push(String::from_str(alloc, word)?)?;
    }
    Ok(words)
}

/// Runs these words over an outside, and answers the status.
pub(crate) fn run_words<F: Shelf, T: Sink, G: Glass>(
    alloc: Global,
    request: &[&str],
    shelf: &mut F,
    sink: &mut T,
    glass: &mut G,
) -> Result<Status, Fail> {
    let request = words(alloc, request)?;
    Ok(run(alloc, &request, shelf, sink, glass))
}

/// A shelf with these files, whose call of this number fails, where it isn't 0.
fn shelf_of(alloc: Global, page: &[u8], script: &[u8], read: u32) -> Result<MemShelf, Fail> {
    let mut shelf = MemShelf::new(alloc);
    shelf.add("page", page)?;
    shelf.add("script", script)?;
    shelf.fail_at(read);
    Ok(shelf)
}

/// A shelf with a page alone.
pub(crate) fn shelf_with(alloc: Global, page: &[u8]) -> Result<MemShelf, Fail> {
    shelf_of(alloc, page, b"", 0)
}

/// Which call of the shelf fails and which of the sink, counted from 1, where they aren't 0, and how many
/// bytes the sink has room for.
#[derive(Clone, Copy)]
pub(crate) struct Outside {
    pub read: u32,
    pub write: u32,
    pub room: u32,
}

/// Nothing fails, and there is ample room.
pub(crate) const SOUND: Outside = Outside {
    read: 0,
    write: 0,
    room: 1 << 17,
};

/// How a run ended, what it put, and what the glass shows.
#[derive(Drop)]
pub(crate) struct Ended {
    pub status: Status,
    pub put: Vec<u8>,
    pub glass: GridGlass,
}

/// Runs these words on a page and a script.
pub(crate) fn tried(
    alloc: Global,
    request: &[&str],
    page: &[u8],
    script: &[u8],
    outside: Outside,
) -> Result<Ended, Fail> {
    let mut shelf = shelf_of(alloc, page, script, outside.read)?;
    let mut sink = MemSink::new(alloc, outside.room)?;
    sink.fail_at(outside.write);
    let mut glass = GridGlass::new(alloc)?;
    let status = run_words(alloc, request, &mut shelf, &mut sink, &mut glass)?;
    let put = Vec::from_slice(alloc, sink.bytes())?;
    Ok(Ended { status, put, glass })
}
