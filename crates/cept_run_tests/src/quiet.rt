//! Runs over an outside that never fails.

use crate::running::words;
use cept_outside::{QuietShelf, QuietSink};
use cept_repaint::GridGlass;
use cept_run::run::{Status, run_quietly};
use std::alloc::Global;
use std::test::Fail;

/// Runs these words quietly on a page of an A and a refused byte, and answers the status and how many bytes
/// were put.
fn tried_quietly(alloc: Global, request: &[&str]) -> Result<(Status, u64), Fail> {
    let request = words(alloc, request)?;
    let mut shelf = QuietShelf::new(alloc);
    shelf.add("page", b"A\x1C")?;
    let mut sink = QuietSink::new();
    let mut glass = GridGlass::new(alloc)?;
    let status = run_quietly(alloc, &request, &mut shelf, &mut sink, &mut glass);
    Ok((status, sink.count()))
}

/// Words, the status, and how many bytes are put. A file that was never added is an empty page.
const RUNS: [(&[&str], Status, u64); 8] = [
    (&["changes", "page"], Status::Refusals, 55),
    (&["check", "page"], Status::Refusals, 44),
    (&["check", "other"], Status::Done, 18),
    (&["list", "page"], Status::Refusals, 46),
    (&["list", "other"], Status::Done, 0),
    (&["changes", "other"], Status::Done, 0),
    (&["gen", "1"], Status::Done, 49_903),
    (&["changes"], Status::Usage, 0),
];

#[test]
fn runs_quietly(rt: HostRuntime) -> Result<(), Fail> {
    for (request, status, count) in RUNS {
        let found = tried_quietly(rt.alloc(), request)?;
        assert!(rt; found.0 == status && found.1 == count, "{request:?}");
    }
    Ok(())
}
