//! Each call that takes memory, once with ample memory.

use cept_cells::Grid;
use cept_codes::{Cell, Form, Pos};
use cept_drcs::{Loader, Patterns};
use cept_outside::{MemShelf, MemSink, PlainShelf, PlainSink, QuietShelf, Shelf, Sink};
use std::test::Fail;

/// Takes the file with this name, of at most four bytes.
fn taken<F: Shelf>(shelf: &mut F, name: &str) -> Result<[u8; 4], Fail> {
    let mut into = [0; 4];
    shelf.select(name)?;
    let _ = shelf.take(&mut into)?;
    Ok(into)
}

#[test]
fn a_file_takes_the_place_of_the_one_with_its_name(rt: HostRuntime) -> Result<(), Fail> {
    let mut shelf = MemShelf::new(rt.alloc());
    shelf.add("page", b"AB")?;
    shelf.add("other", b"F")?;
    shelf.add("page", b"CDE")?;
    assert!(rt; taken(&mut shelf, "page")? == *b"CDE\0");
    assert!(rt; taken(&mut shelf, "other")? == *b"F\0\0\0");
    Ok(())
}

#[test]
fn other_shelves_have_files(rt: HostRuntime) -> Result<(), Fail> {
    let mut quiet = QuietShelf::new(rt.alloc());
    quiet.add("page", b"AB")?;
    assert!(rt; taken(&mut quiet, "page")? == *b"AB\0\0");
    let mut plain = PlainShelf::new(rt.alloc());
    plain.add("page", b"AB")?;
    assert!(rt; taken(&mut plain, "page")? == *b"AB\0\0");
    Ok(())
}

#[test]
fn sinks_have_room(rt: HostRuntime) -> Result<(), Fail> {
    let mut sink = MemSink::new(rt.alloc(), 4)?;
    assert!(rt; sink.put(b"AB")? == 2);
    assert!(rt; sink.bytes() == b"AB".as_slice());
    let mut plain = PlainSink::new(rt.alloc(), 1)?;
    assert!(rt; plain.put(b"AB")? == 1);
    assert!(rt; plain.bytes() == b"A".as_slice());
    Ok(())
}

#[test]
fn a_grid_keeps_a_cell(rt: HostRuntime) -> Result<(), Fail> {
    let mut grid = Grid::new(rt.alloc())?;
    let last = Pos::new(24, 40).ok_or("no place")?;
    let kept = Cell {
        protected: true,
        ..Cell::BLANK
    };
    assert!(rt; grid.get(last) == Cell::BLANK);
    assert!(rt; grid.put(last, kept));
    assert!(rt; grid.get(last) == kept);
    Ok(())
}

/// 6x6 pixels in one plane.
const SIX_LINES: Form = Form {
    w: 6,
    h: 6,
    planes: 1,
};

#[test]
fn a_code_has_its_pattern(rt: HostRuntime) -> Result<(), Fail> {
    let mut patterns = Patterns::new(rt.alloc())?;
    let empty = Loader::new(SIX_LINES).pattern();
    patterns.define(0x7E, empty);
    assert!(rt; patterns.get(0x7E) == Some(empty));
    assert!(rt; patterns.get(0x21).is_none());
    Ok(())
}
