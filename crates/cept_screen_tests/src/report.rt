//! What is reported of a glass.

use crate::applying::painted;
use cept_outside::MemSink;
use cept_repaint::GridGlass;
use cept_report::{put_cells, put_check, put_screen};
use std::alloc::Global;
use std::marker::Brand;
use std::sync::ledger::Blank;
use std::test::Fail;

/// What is put of the first row of a glass: the screen, the lines of its cells, and a line of counts.
fn reported(alloc: Global, glass: &GridGlass) -> Result<Vec<u8>, Fail> {
    let mut sink = MemSink::new(alloc, 1000)?;
    put_screen(&mut sink, glass, 1)?;
    put_cells(&mut sink, glass, 1)?;
    put_check(&mut sink, 3, 1)?;
    Ok(Vec::from_slice(alloc, sink.bytes())?)
}

#[test]
fn a_painted_sign_is_shown_and_reported(rt: HostRuntime) -> Result<(), Fail> {
    let page = painted::<Brand>(rt.alloc(), Blank::new(1))?;
    let put = reported(rt.alloc(), &page.glass)?;
    let want =
        b"A                                       \n1 1 P41 11.00 FFF 000 F---\nitems 3 refused 1\n";
    assert!(rt; put.as_slice() == want.as_slice());
    Ok(())
}
