ghost use Rattle.cept_flash.specs.Phases.{frame};
ghost use Rattle.cept_outside.specs.SinkState.{PutsText};
ghost use Rattle.cept_profile.specs.Changes.{marked_looks};
ghost use Rattle.cept_profile.specs.Look.{looks_of};
ghost use Rattle.cept_profile.specs.State.{core_of};
ghost use Rattle.cept_report.specs.Phases.{phase_lines};
ghost use Rattle.cept_report.specs.Text.{change_lines};

use crate::put::put_line;
use cept_flash::Blink;
use cept_outside::{Sink, WriteFault};
use cept_repaint::{Marks, Screen};

/// Puts the lines of a screen that flashes: for each place that isn't blank at the start one with
/// the label 0, and then for each place that a turn changes one with the number of the turn, counted
/// from 1, and the look at that phase. Whatever the blink kept before is left. After `WriteFault` a
/// part of the text was put, from its front on, and not the whole.
pub fn put_phases<T: Sink>(
    sink: &mut T,
    screen: &Screen,
    turns: u16,
    blink: &mut Blink,
) -> Result<(), WriteFault>
    ensures { let text = phase_lines (looks_of (core_of screen.now)) turns in
        PutsText (T.state sink.old) text result (T.state sink.new) }
{
    let mut marks = Marks::new();
    blink.start(screen, &mut marks);
    put_marked(sink, 0, &marks, blink)?;
    for turn in 0..turns {
        blink.turn(&mut marks);
        put_marked(sink, u64::from(turn) + 1, &marks, blink)?;
    }
    Ok(())
}

/// Puts a line for each marked place in reading order: the label, the place, and its look at the
/// phase.
fn put_marked<T: Sink>(
    sink: &mut T,
    label: u64,
    marks: &Marks,
    blink: &Blink,
) -> Result<(), WriteFault>
    ensures { let text =
        change_lines label (marked_looks marks.now (frame blink.now.looks blink.now.phase)) in
        PutsText (T.state sink.old) text result (T.state sink.new) }
{
    let mut from = 0u16;
    while let Some(at) = marks.next_from(from) {
        put_line(sink, label, at, &blink.now(at))?;
        from = at.number() + 1;
    }
    Ok(())
}
