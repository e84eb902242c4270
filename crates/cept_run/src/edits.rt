//! Makes the edits of a script, and puts their lines where they are asked for; or draws a drawing.

ghost use Rattle.std.specs.Prelude.{[], if◌then◌else◌};
ghost use Rattle.cept_editor.specs.Made.{output_of};
ghost use Rattle.cept_outside.specs.SinkState.{PutsText};
ghost use Rattle.cept_report.specs.Text.{nothing_line};
ghost use Rattle.cept_run.specs.Reporting.{Draws, MakesLines};

use cept_editor::{Done, Editor, Script};
use cept_outside::{Sink, Steps, WriteFault};
use cept_plot::{Drawing, Field, paint_field};
use cept_repaint::{Glass, Marks, Screen};
use cept_report::put_nothing;
use std::sync::ledger::Ledger;

/// Puts the line of an undo before which no edit was kept, or of a redo before which none was undone,
/// where lines are asked for.
fn tell_nothing<T: Sink>(listed: bool, line: u32, sink: &mut T) -> Result<(), WriteFault>
    ensures { PutsText (T.state sink.old) (if listed then nothing_line line else []) result
        (T.state sink.new) }
{
    if listed {
        put_nothing(sink, line)
    } else {
        Ok(())
    }
}

/// Makes all edits of a script.
pub fn make_lines<T: Sink, G: Glass, L: Ledger>(
    editor: &mut Editor,
    script: &Script,
    listed: bool,
    marks: &mut Marks,
    sink: &mut T,
    glass: &mut G,
    steps: &mut Steps<L>,
) -> Result<(), WriteFault>
    ensures { MakesLines listed script.now editor.old
        (output_of (T.state sink.old) (G.state glass.old)) result editor.new
        (output_of (T.state sink.new) (G.state glass.new)) }
{
    for k in 0..script.len() {
        match editor.line(script, k, glass, marks, sink, listed, steps)? {
            Done::Done => {}
            Done::Nothing => tell_nothing(listed, script.line_of(k), sink)?,
        }
    }
    Ok(())
}

/// Draws a drawing on the page that a screen has: the points of its field, changed by the figures.
pub fn draw<G: Glass, L: Ledger>(
    screen: &mut Screen,
    drawing: &Drawing,
    marks: &mut Marks,
    glass: &mut G,
    steps: &mut Steps<L>,
)
    ensures { Draws drawing.now screen.old (G.state glass.old) screen.new (G.state glass.new) }
{
    let mut field = Field::of(screen);
    field.draw(drawing);
    paint_field(screen, &field, glass, marks, steps);
}
