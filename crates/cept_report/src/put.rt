ghost use Rattle.std.specs.Prelude.{◌≡◌, ◌≤◌, [], false, IsOk, if◌then◌else◌};
ghost use Rattle.cept_codes.specs.Look.{IsValidLook};
ghost use Rattle.cept_codes.specs.Place.{number};
ghost use Rattle.cept_outside.specs.SinkState.{PutsText};
ghost use Rattle.cept_profile.specs.Changes.{marked_looks};
ghost use Rattle.cept_profile.specs.Look.{looks_of};
ghost use Rattle.cept_profile.specs.State.{core_of};
ghost use Rattle.cept_redraw.specs.Marks.{IsFirstFrom};
ghost use Rattle.cept_report.specs.Screen.{cells_text, screen_text};
ghost use Rattle.cept_report.specs.Text.{change_line, change_lines, check_line, refusal_line};
ghost use Rattle.cept_report.specs.Text.{nothing_line, script_fault_line, load_line};
ghost use Rattle.cept_report.specs.inside.Text.{marked_lines};

use crate::ending::Ending;
use crate::gathering::{gather_change, gather_shape, put_gathered};
use crate::line::Line;
use crate::lines::{
    add_front, cell_text, check_line, load_line, nothing_line, refusal_line, script_fault_line,
};
use crate::look::add_fields;
use crate::signs::row_line;
use cept_codes::{LineReason, Look, Pos, Reason};
use cept_outside::{Sink, WriteFault, put_all};
use cept_repaint::{Glass, Marks, Screen, shown_look};
use itoa::Buffer;

/// Puts the line of refused bytes: the place of the first, their number, and the reason. After
/// `WriteFault` a part of it was put, from its front on, and not the whole.
pub fn put_refusal<T: Sink>(
    sink: &mut T,
    at: u64,
    len: u8,
    reason: Reason,
) -> Result<(), WriteFault>
    ensures { PutsText (T.state sink.old) (refusal_line at len reason) result (T.state sink.new) }
{
    put_all(sink, refusal_line(at, len, reason).as_slice())
}

/// Puts a line for each marked place in reading order: the label, the place, and its look on the
/// screen. After `WriteFault` a part of the text was put, from its front on, and not the whole.
#[inline(never)]
pub fn put_changes<T: Sink>(
    sink: &mut T,
    label: u64,
    marks: &Marks,
    screen: &Screen,
) -> Result<(), WriteFault>
    ensures { let text =
        change_lines label (marked_looks marks.now (looks_of (core_of screen.now))) in
        PutsText (T.state sink.old) text result (T.state sink.new) }
{
    match marks.next_from(0) {
        Some(first) => put_changes_from(sink, label, marks, screen, first),
        None => Ok(()),
    }
}

/// Puts a line for each marked place, of which this is the first.
fn put_changes_from<T: Sink>(
    sink: &mut T,
    label: u64,
    marks: &Marks,
    screen: &Screen,
    first: Pos,
) -> Result<(), WriteFault>
    requires { IsFirstFrom marks.now 0 first }
    ensures { PutsText (T.state sink.old)
        (marked_lines label marks.now (looks_of (core_of screen.now))) result (T.state sink.new) }
{
    let mut digits = Buffer::new();
    let number = digits.format(label).as_bytes();
    let mut lines = Line::new();
    let mut kept = Ending::blank();
    let mut from = first.number();
    while let Some(at) = marks.next_from(from) {
        gather_change(sink, &mut lines, &mut kept, number, at, screen)?;
        from = at.number() + 1;
    }
    put_gathered(sink, &lines)
}

/// Puts the lines of the marked places, where they are listed, and else nothing. After `WriteFault` a
/// part of the text was put, from its front on, and not the whole.
#[inline(always)]
pub fn put_changes_if<T: Sink>(
    listed: bool,
    sink: &mut T,
    label: u64,
    marks: &Marks,
    screen: &Screen,
) -> Result<(), WriteFault>
    ensures puts { let changed = marked_looks marks.now (looks_of (core_of screen.now)) in
        PutsText (T.state sink.old) (if listed then change_lines label changed else []) result
        (T.state sink.new) }
    ensures quiet { listed ≡ false → IsOk result × (T.state sink.new ≡ T.state sink.old) }
{
    if listed {
        put_changes(sink, label, marks, screen)
    } else {
        Ok(())
    }
}

/// Puts the line of a place: the label, the place, and this look. After `WriteFault` a part of it was
/// put, from its front on, and not the whole.
pub fn put_line<T: Sink>(sink: &mut T, label: u64, at: Pos, look: &Look) -> Result<(), WriteFault>
    requires { IsValidLook look.now }
    ensures { PutsText (T.state sink.old) (change_line label at look.now) result (T.state sink.new) }
{
    let mut digits = Buffer::new();
    let mut line = Line::new();
    let number = digits.format(label).as_bytes();
    add_front(&mut line, number, at);
    gather_shape(sink, &mut line, &look.shape)?;
    add_fields(&mut line, look);
    put_gathered(sink, &line)
}

/// Puts how many items there are, and how many of them are refused. After `WriteFault` a part of
/// the line was put, from its front on, and not the whole.
pub fn put_check<T: Sink>(sink: &mut T, items: u64, refused: u64) -> Result<(), WriteFault>
    ensures { PutsText (T.state sink.old) (check_line items refused) result (T.state sink.new) }
{
    put_all(sink, check_line(items, refused).as_slice())
}

/// Puts what the glass shows in so many rows from the top, at most 24: for each row its 40 signs in
/// UTF-8 and a line feed. After `WriteFault` a part of the text was put, from its front on, and not
/// the whole.
pub fn put_screen<T: Sink, G: Glass>(sink: &mut T, glass: &G, rows: u8) -> Result<(), WriteFault>
    requires { rows ≤ 24 }
    ensures { let text = screen_text (G.state glass.now).grid rows in
        PutsText (T.state sink.old) text result (T.state sink.new) }
{
    for i in 0..rows {
        put_all(sink, row_line(glass, i + 1).as_slice())?;
    }
    Ok(())
}

/// Puts a line for each place in so many rows from the top, at most 24, whose look isn't the blank
/// look: the place and its look, in reading order. After `WriteFault` a part of the text was put,
/// from its front on, and not the whole.
pub fn put_cells<T: Sink, G: Glass>(sink: &mut T, glass: &G, rows: u8) -> Result<(), WriteFault>
    requires { rows ≤ 24 }
    ensures { let text = cells_text (G.state glass.now).grid rows in
        PutsText (T.state sink.old) text result (T.state sink.new) }
{
    for n in 0..40 * u16::from(rows) {
        let at = Pos::from_number(n).unwrap();
        put_all(sink, cell_text(at, &shown_look(glass, at)).as_slice())?;
    }
    Ok(())
}

/// Puts the line of an undo before which no edit was kept: its number, counted from 1. After
/// `WriteFault` a part of it was put, from its front on, and not the whole.
pub fn put_nothing<T: Sink>(sink: &mut T, line: u32) -> Result<(), WriteFault>
    ensures { PutsText (T.state sink.old) (nothing_line line) result (T.state sink.new) }
{
    put_all(sink, nothing_line(line).as_slice())
}

/// Puts which line of a script is the first outside the grammar, counted from 1, and for which
/// reason. After `WriteFault` a part of it was put, from its front on, and not the whole.
pub fn put_script_fault<T: Sink>(
    sink: &mut T,
    line: u32,
    reason: LineReason,
) -> Result<(), WriteFault>
    ensures { PutsText (T.state sink.old) (script_fault_line line reason) result (T.state sink.new) }
{
    put_all(sink, script_fault_line(line, reason).as_slice())
}

/// Puts how many bytes and items a page has, and how many places its commands changed, one command
/// after the other. After `WriteFault` a part of the line was put, from its front on, and not the
/// whole.
pub fn put_load<T: Sink>(
    sink: &mut T,
    bytes: u64,
    items: u64,
    paints: u64,
) -> Result<(), WriteFault>
    ensures { PutsText (T.state sink.old) (load_line bytes items paints) result (T.state sink.new) }
{
    put_all(sink, load_line(bytes, items, paints).as_slice())
}
