ghost use Rattle.std.specs.Prelude.{◌+◌};
ghost use Rattle.cept_profile.specs.Changes.{marked_looks};
ghost use Rattle.cept_profile.specs.Look.{looks_of};
ghost use Rattle.cept_profile.specs.State.{core_of};
ghost use Rattle.cept_repaint.specs.inside.Applied.{PaintsAll};

use crate::glass::Glass;
use crate::screen::Screen;
use cept_redraw::Marks;

/// Paints the marked places in reading order, each once, with the screen's look.
pub(crate) fn paint_marked<G: Glass>(screen: &Screen, glass: &mut G, marks: &Marks)
    ensures { PaintsAll (G.state glass.old) (marked_looks marks.now (looks_of (core_of screen.now)))
        (G.state glass.new) }
{
    if marks.has_none() {
        return;
    }
    if let Some(place) = marks.only() {
        glass.paint(place, screen);
    } else {
        paint_rows(screen, glass, marks);
    }
}

/// The same of any marks, a row after the other.
// A call of its own: most commands mark one place.
#[inline(never)]
fn paint_rows<G: Glass>(screen: &Screen, glass: &mut G, marks: &Marks)
    ensures { PaintsAll (G.state glass.old) (marked_looks marks.now (looks_of (core_of screen.now)))
        (G.state glass.new) }
{
    let mut from = 1;
    while let Some(row) = marks.next_row(from) {
        glass.paint_row(row, marks.row_flags(row), screen);
        from = row.number() + 1;
    }
}
