//! What a run paints on: a display of one's own, and a tape.

use crate::running::{run_words, shelf_with};
use cept_codes::{Look, Pos, Shape};
use cept_outside::MemSink;
use cept_repaint::{Glass, GridGlass, Screen, TapeGlass};
use cept_run::run::Status;
use std::alloc::Global;
use std::test::Fail;

/// A display of one's own: it draws each cell where it is painted, here as one byte. A glass beside
/// it keeps what is shown.
#[derive(Drop)]
struct Terminal<G> {
    kept: G,
    drawn: [u8; 960],
}

impl<G: Glass> Glass for Terminal<G> {
    ghost state = { λ terminal. G.state terminal.kept };

    fn paint(&mut self, at: Pos, screen: &Screen) {
        self.kept.paint(at, screen);
        self.drawn[usize::from(at.number())] = match screen.look(at).shape {
            Shape::Space => b' ',
            Shape::Char(glyph) => glyph.code,
            Shape::Drcs(_, _) => b'#',
        };
    }

    fn shown(&self, at: Pos) -> Look {
        self.kept.shown(at)
    }

    ghost valid = { λ terminal. G.valid terminal.kept };
}

/// An A at the first place, and a B in row 2, column 3, which has the number 42.
#[test]
fn paints_a_display_of_ones_own(rt: HostRuntime) -> Result<(), Fail> {
    let alloc = rt.alloc();
    let mut shelf = shelf_with(alloc, b"A\x1FBCB")?;
    let mut sink = MemSink::new(alloc, 4096)?;
    let mut terminal = Terminal {
        kept: GridGlass::new(alloc)?,
        drawn: [b'.'; 960],
    };
    let request = ["write", "page"];
    let status = run_words(alloc, &request, &mut shelf, &mut sink, &mut terminal)?;
    assert!(rt; status == Status::Done);
    assert!(rt; terminal.drawn[0] == b'A');
    assert!(rt; terminal.drawn[1] == b'.');
    assert!(rt; terminal.drawn[42] == b'B');
    Ok(())
}

/// How many paints a tape with so much room keeps of a page: two grounds of the screen, one after the
/// other, and a sign.
fn kept_paints(alloc: Global, room: u32) -> Result<usize, Fail> {
    let mut shelf = shelf_with(alloc, b"\x1B# T\x1B# QA")?;
    let mut sink = MemSink::new(alloc, 4096)?;
    let mut glass = TapeGlass::new(alloc, room)?;
    let request = ["show", "page"];
    match run_words(alloc, &request, &mut shelf, &mut sink, &mut glass)? {
        Status::Done => Ok(glass.paints().len()),
        _ => Err("the run fails".into()),
    }
}

#[test]
fn a_tape_keeps_as_many_paints_as_it_has_room_for(rt: HostRuntime) -> Result<(), Fail> {
    for (room, kept) in [(0, 0), (1, 1), (1920, 1920), (1921, 1921), (4000, 1921)] {
        let found = kept_paints(rt.alloc(), room)?;
        assert!(rt; found == kept, "room {room}");
    }
    Ok(())
}
