//! A page as it is written.

use crate::applying::painted;
use cept_outside::MemSink;
use cept_repaint::Screen;
use cept_writer::write_page;
use std::alloc::Global;
use std::marker::Brand;
use std::sync::ledger::Blank;
use std::test::Fail;

/// The bytes of a screen's page, with room for 64.
fn written(alloc: Global, screen: &Screen) -> Result<Vec<u8>, Fail> {
    let mut sink = MemSink::new(alloc, 64)?;
    write_page(screen, &mut sink)?;
    Ok(Vec::from_slice(alloc, sink.bytes())?)
}

#[test]
fn a_sign_is_written_at_its_place(rt: HostRuntime) -> Result<(), Fail> {
    let page = painted::<Brand>(rt.alloc(), Blank::new(1))?;
    let bytes = written(rt.alloc(), &page.screen)?;
    assert!(rt; bytes.as_slice() == b"\x1F/B\x1F-Ap\x1FAA\x1B\"A\x88A".as_slice());
    Ok(())
}
