//! Lines of changed places, gathered in the room of one and put where it is full.
ghost use Rattle.std.specs.Prelude.{◌≡◌, ◌+◌, ◌≤◌, ◌∷◌, [], ◌++◌, length, OnOk};
ghost use Rattle.arrayvec.specs.ArrayVec.{array_vec_len};
ghost use Rattle.cept_codes.specs.Look.{IsValidShape};
ghost use Rattle.cept_outside.specs.SinkState.{PutsText};
ghost use Rattle.cept_profile.specs.Changes.{look_at};
ghost use Rattle.cept_profile.specs.Look.{looks_of};
ghost use Rattle.cept_profile.specs.State.{core_of};
ghost use Rattle.cept_report.specs.Ascii.{ascii};
ghost use Rattle.cept_report.specs.Gathered.{Gathers};
ghost use Rattle.cept_report.specs.Room.{GathersShape, HasRoomFor};
ghost use Rattle.cept_report.specs.Front.{cell_line};

use crate::ending::{Ending, add_ending};
use crate::line::{Line, add_byte};
use crate::lines::add_front;
use crate::look::{add_drawing, add_sign};
use cept_codes::{Pos, Shape};
use cept_outside::{Sink, WriteFault, put_all};
use cept_repaint::Screen;

/// Puts what is gathered.
#[inline(always)]
pub fn put_gathered<T: Sink>(sink: &mut T, lines: &Line) -> Result<(), WriteFault>
    ensures { PutsText (T.state sink.old) lines.now.items result (T.state sink.new) }
{
    put_all(sink, lines.as_slice())
}

/// Puts what is gathered, so that there is room again.
// By a new line: `clear` overwrites each byte by a call.
#[inline(never)]
fn hand_on<T: Sink>(sink: &mut T, lines: &mut Line) -> Result<(), WriteFault>
    ensures puts { PutsText (T.state sink.old) lines.old.items result (T.state sink.new) }
    ensures none { lines.new.items ≡ [] }
    ensures len { array_vec_len lines.new ≡ 0 }
{
    let answer = put_gathered(sink, lines);
    *lines = Line::new();
    answer
}

/// Puts what is gathered, where a line without a pattern might not fit.
#[inline(always)]
fn make_room<T: Sink>(sink: &mut T, lines: &mut Line) -> Result<(), WriteFault>
    ensures gathers { Gathers (T.state sink.old) lines.old.items [] result (T.state sink.new)
        lines.new.items }
    ensures room { OnOk result (array_vec_len lines.new ≤ 195) }
{
    if lines.len() > 195 {
        hand_on(sink, lines)
    } else {
        Ok(())
    }
}

/// Gathers what is drawn. Before a pattern, which needs the whole room, what was gathered is put.
pub fn gather_shape<T: Sink>(
    sink: &mut T,
    lines: &mut Line,
    shape: &Shape,
) -> Result<(), WriteFault>
    requires valid { IsValidShape shape.now }
    requires room { HasRoomFor 26 lines.old }
    ensures { GathersShape (T.state sink.old) lines.old shape.now result (T.state sink.new)
        lines.new }
{
    match shape {
        Shape::Space => add_byte(lines, b'-'),
        Shape::Char(glyph) => add_sign(lines, *glyph),
        Shape::Drcs(pattern, inks) => {
            hand_on(sink, lines)?;
            add_drawing(lines, pattern, inks);
        }
    }
    Ok(())
}

/// Gathers what is drawn at a place.
// A call of its own, which looks again: so one that sees no pattern never makes room for one.
#[inline(never)]
fn gather_drawing<T: Sink>(
    sink: &mut T,
    lines: &mut Line,
    at: Pos,
    screen: &Screen,
) -> Result<(), WriteFault>
    requires { HasRoomFor 26 lines.old }
    ensures { let look = look_at (looks_of (core_of screen.now)) at in
        GathersShape (T.state sink.old) lines.old look.shape result (T.state sink.new) lines.new }
{
    gather_shape(sink, lines, &screen.look(at).shape)
}

/// Gathers what is drawn at a place of the screen, which is this.
#[inline(always)]
fn gather_seen<T: Sink>(
    sink: &mut T,
    lines: &mut Line,
    shape: &Shape,
    at: Pos,
    screen: &Screen,
) -> Result<(), WriteFault>
    requires seen { shape.now ≡ (look_at (looks_of (core_of screen.now)) at).shape }
    requires room { HasRoomFor 26 lines.old }
    ensures { GathersShape (T.state sink.old) lines.old shape.now result (T.state sink.new)
        lines.new }
{
    match shape {
        Shape::Space => add_byte(lines, b'-'),
        Shape::Char(glyph) => add_sign(lines, *glyph),
        Shape::Drcs(_, _) => return gather_drawing(sink, lines, at, screen),
    }
    Ok(())
}

/// Gathers the line of a changed place: the label, the place, and its look on the screen.
#[inline(always)]
pub fn gather_change<T: Sink>(
    sink: &mut T,
    lines: &mut Line,
    kept: &mut Ending,
    label: &[u8],
    at: Pos,
    screen: &Screen,
) -> Result<(), WriteFault>
    requires { length label.now ≤ 20 }
    ensures { let look = look_at (looks_of (core_of screen.now)) at in
        Gathers (T.state sink.old) lines.old.items (label.now ++ ascii " " ∷ cell_line at look) result
        (T.state sink.new) lines.new.items }
{
    make_room(sink, lines)?;
    add_front(lines, label, at);
    let look = screen.look(at);
    gather_seen(sink, lines, &look.shape, at, screen)?;
    add_ending(lines, kept, &look, at, screen);
    Ok(())
}
