//! Runs over an outside that fails, one call after the other. Each run ends with the status of what failed,
//! what it put is a front of the whole output, and the glass shows what was painted up to there.

use crate::running::{Ended, Outside, SOUND, tried};
use cept_codes::{Look, Pos};
use cept_repaint::{Glass, GridGlass};
use cept_run::run::Status;
use std::alloc::Global;
use std::process::Abort;
use std::test::Fail;

/// How long the line of a changed letter is.
const LINE: usize = 29;

/// When a run puts what it puts: with each item of the page, with each edit, or at the end.
#[derive(Clone, Copy, PartialEq, Eq)]
enum Time {
    Item,
    Edit,
    End,
}

/// A run that puts this of a page and a script or drawing where nothing fails. The first row shows three
/// letters then.
#[derive(Clone, Copy)]
struct Whole<'a> {
    request: &'a [&'a str],
    page: &'a [u8],
    script: &'a [u8],
    put: &'a [u8],
    time: Time,
}

const CHANGES: Whole<'static> = Whole {
    request: &["changes", "page"],
    page: b"\x12AABC",
    script: b"",
    put: b"2 1 1 P41 11.00 FFF 000 S---\n3 1 2 P42 11.00 FFF 000 S---\n4 1 3 P43 11.00 FFF 000 S---\n",
    time: Time::Item,
};

const TRACE: Whole<'static> = Whole {
    request: &["trace", "page", "script"],
    page: b"",
    script: b"text A\ntext B\n\ntext C\n",
    put: b"1 1 1 P41 11.00 FFF 000 S---\n2 1 2 P42 11.00 FFF 000 S---\n4 1 3 P43 11.00 FFF 000 S---\n",
    time: Time::Edit,
};

const CELLS: Whole<'static> = Whole {
    request: &["cells", "page"],
    page: b"ABC",
    script: b"",
    put: b"1 1 P41 11.00 FFF 000 S---\n1 2 P42 11.00 FFF 000 S---\n1 3 P43 11.00 FFF 000 S---\n",
    time: Time::End,
};

const WRITE: Whole<'static> = Whole {
    request: &["write", "page"],
    page: b"ABC",
    script: b"",
    put: b"\x1F/B\x1F-Ap\x1FAA\x1B\x22AABC",
    time: Time::End,
};

const EDIT: Whole<'static> = Whole {
    request: &["edit", "page", "script"],
    page: b"A",
    script: b"text B\ntext C\n",
    put: b"\x1F/B\x1F-Ap\x1FAA\x1B\x22AABC",
    time: Time::End,
};

const PLOT: Whole<'static> = Whole {
    request: &["plot", "page", "script"],
    page: b"ABC",
    script: b"plot 79 71\n",
    put: b"\x1F/B\x1F-Ap\x1FAA\x1B\x22AABC\x1FXh\x1B\x22A\x0E`\x0F",
    time: Time::End,
};

/// The A flashes, and is off after three turns.
const FLASH: Whole<'static> = Whole {
    request: &["flash", "page", "3"],
    page: b"\x88A\x89BC",
    script: b"",
    put: b"0 1 1 P41 11.00 FFF 000 S---\n0 1 2 P42 11.00 FFF 000 S---\n0 1 3 P43 11.00 FFF 000 S---\n\
        3 1 1 - 11.00 FFF 000 S---\n",
    time: Time::End,
};

/// Runs of words that read a page, with each time.
const WHOLES: [Whole<'static>; 7] = [CHANGES, TRACE, CELLS, WRITE, EDIT, PLOT, FLASH];

/// A run of these words, whose outside fails so.
fn tried_whole(alloc: Global, whole: Whole<'_>, outside: Outside) -> Result<Ended, Fail> {
    tried(alloc, whole.request, whole.page, whole.script, outside)
}

/// Whether a column of the first row shows something.
fn shows(glass: &GridGlass, column: u8) -> bool {
    match Pos::new(1, column) {
        Some(place) => glass.shown(place) != Look::BLANK,
        None => false,
    }
}

/// How many of the first three columns show something, from the first on.
fn shown_columns(glass: &GridGlass) -> usize {
    match (shows(glass, 1), shows(glass, 2), shows(glass, 3)) {
        (false, false, false) => 0,
        (true, false, false) => 1,
        (true, true, false) => 2,
        (true, true, true) => 3,
        _ => 4,
    }
}

/// How many letters are painted where so many bytes were put and the output failed: those whose lines were
/// put, and the one at whose line it failed; or all, where what is put comes at the end.
fn painted_letters(time: Time, put: usize) -> usize {
    match time {
        Time::End => 3,
        _ => (put / LINE).min(2) + 1,
    }
}

/// The output failed: what was put is a front of the whole, and what was painted goes up to the first line
/// that isn't all put.
fn compare_cut(rt: &impl Abort, whole: Whole<'_>, found: &Ended) {
    let put = found.put.as_slice();
    assert!(rt; found.status == Status::WriteFault);
    assert!(rt; whole.put.starts_with(put));
    assert!(rt; shown_columns(&found.glass) == painted_letters(whole.time, put.len()));
}

/// A read failed: what was put is a front of the whole, and nothing unless it is put with each item.
fn compare_unread(rt: &impl Abort, whole: Whole<'_>, found: &Ended) {
    let put = found.put.as_slice();
    assert!(rt; found.status == Status::ReadFault);
    assert!(rt; whole.put.starts_with(put));
    assert!(rt; put.is_empty() || whole.time == Time::Item);
}

/// Nothing failed.
fn compare_whole(rt: &impl Abort, whole: Whole<'_>, found: &Ended) {
    assert!(rt; found.status == Status::Done);
    assert!(rt; found.put.as_slice() == whole.put);
    assert!(rt; shown_columns(&found.glass) == 3);
}

/// Lets each read fail, one run after the other. Answers the number of the run that ends well, or 0.
fn first_without_read_fault(rt: &impl Abort, alloc: Global, whole: Whole<'_>) -> Result<u32, Fail> {
    for read in 1..100u32 {
        let found = tried_whole(alloc, whole, Outside { read, ..SOUND })?;
        if found.status == Status::Done {
            compare_whole(rt, whole, &found);
            return Ok(read);
        }
        compare_unread(rt, whole, &found);
    }
    Ok(0)
}

#[test]
fn each_read_fails(rt: HostRuntime) -> Result<(), Fail> {
    for whole in WHOLES {
        let first = first_without_read_fault(&rt, rt.alloc(), whole)?;
        assert!(rt; first >= 4, "run {first} ends well");
    }
    Ok(())
}

/// Lets each write fail, one run after the other. Answers the number of the run that ends well, or 0.
fn first_without_write_fault(
    rt: &impl Abort,
    alloc: Global,
    whole: Whole<'_>,
) -> Result<u32, Fail> {
    for write in 1..1000u32 {
        let found = tried_whole(alloc, whole, Outside { write, ..SOUND })?;
        if found.status == Status::Done {
            compare_whole(rt, whole, &found);
            return Ok(write);
        }
        compare_cut(rt, whole, &found);
    }
    Ok(0)
}

#[test]
fn each_write_fails(rt: HostRuntime) -> Result<(), Fail> {
    for whole in WHOLES {
        let first = first_without_write_fault(&rt, rt.alloc(), whole)?;
        assert!(rt; first >= 3, "run {first} ends well");
    }
    Ok(())
}

/// Gives the output each room, from none on: all of it is filled before it fails.
fn compare_rooms(rt: &impl Abort, alloc: Global, whole: Whole<'_>) -> Result<(), Fail> {
    for room in 0..120u32 {
        let found = tried_whole(alloc, whole, Outside { room, ..SOUND })?;
        if whole.put.len() <= room as usize {
            compare_whole(rt, whole, &found);
        } else {
            assert!(rt; found.put.len() == room as usize);
            compare_cut(rt, whole, &found);
        }
    }
    Ok(())
}

#[test]
fn each_room_is_too_small(rt: HostRuntime) -> Result<(), Fail> {
    for whole in WHOLES {
        compare_rooms(&rt, rt.alloc(), whole)?;
    }
    Ok(())
}

/// The third call of the shelf comes after the sign, and fails: its line was put.
#[test]
fn reports_what_came_before_a_fault(rt: HostRuntime) -> Result<(), Fail> {
    let outside = Outside { read: 3, ..SOUND };
    let found = tried(rt.alloc(), &["changes", "page"], b"A", b"", outside)?;
    assert!(rt; found.status == Status::ReadFault);
    assert!(rt; found.put.as_slice() == b"0 1 1 P41 11.00 FFF 000 S---\n".as_slice());
    Ok(())
}

/// A script whose second line is outside the grammar, with a page that has a refused item.
const BAD: Whole<'static> = Whole {
    request: &["trace", "page", "script"],
    page: b"A\x1C",
    script: b"text B\nat 25 1\n",
    put: b"script line 2: 3 BadNumber\n",
    time: Time::End,
};

/// Of the fault line so much is put as there is room for, and no page is read.
#[test]
fn a_fault_of_a_script_is_cut(rt: HostRuntime) -> Result<(), Fail> {
    let line = BAD.put;
    for room in 0..40u32 {
        let found = tried_whole(rt.alloc(), BAD, Outside { room, ..SOUND })?;
        let front = line.len().min(room as usize);
        assert!(rt; found.put.as_slice() == &line[..front], "room {room}");
        let is_whole = front == line.len();
        assert!(rt; (found.status == Status::Script) == is_whole, "room {room}");
        assert!(rt;
            (found.status == Status::WriteFault) != is_whole,
            "room {room}"
        );
        assert!(rt; shown_columns(&found.glass) == 0, "room {room}");
    }
    Ok(())
}

/// A letter, its undo and its redo.
const REDO: Whole<'static> = Whole {
    request: &["trace", "page", "script"],
    page: b"",
    script: b"text A\nundo\nredo\n",
    put: b"1 1 1 P41 11.00 FFF 000 S---\n2 1 1 - 11.00 FFF 000 S---\n3 1 1 P41 11.00 FFF 000 S---\n",
    time: Time::Edit,
};

/// The output fails at the line of the undo and at that of the redo after it: what was put is a front of the
/// whole, and the one at whose line it failed is painted.
#[test]
fn a_redo_is_painted_before_its_line(rt: HostRuntime) -> Result<(), Fail> {
    for room in 29..85u32 {
        let found = tried_whole(rt.alloc(), REDO, Outside { room, ..SOUND })?;
        assert!(rt; found.status == Status::WriteFault, "room {room}");
        assert!(rt;
            found.put.as_slice() == &REDO.put[..room as usize],
            "room {room}"
        );
        let is_redone = room >= 56;
        assert!(rt; shows(&found.glass, 1) == is_redone, "room {room}");
    }
    Ok(())
}

/// The line that `load 0` puts; its first two numbers are of another program that draws the table, and the
/// third one of a plain reading.
const LOADED: &[u8] = b"bytes 49888 items 32535 paints 175615\n";

/// Lets each write of a load line fail, one run after the other. Answers the number of the run that ends well,
/// or 0.
fn first_loaded(rt: &impl Abort, alloc: Global) -> Result<u32, Fail> {
    for write in 1..100u32 {
        let outside = Outside { write, ..SOUND };
        let found = tried(alloc, &["load", "0"], b"", b"", outside)?;
        let put = found.put.as_slice();
        if found.status == Status::Done {
            assert!(rt; put == LOADED);
            return Ok(write);
        }
        assert!(rt; found.status == Status::WriteFault);
        assert!(rt; LOADED.starts_with(put));
    }
    Ok(0)
}

#[test]
fn each_write_of_a_load_line_fails(rt: HostRuntime) -> Result<(), Fail> {
    let first = first_loaded(&rt, rt.alloc())?;
    assert!(rt; first >= 3, "run {first} ends well");
    Ok(())
}
