ghost use Rattle.std.specs.Prelude.{◌≡◌, ◌<◌, ◌++◌, ◌∷◌, []};
ghost use Rattle.cept_codes.specs.Command.{IsValidCommand};
ghost use Rattle.cept_plot.specs.Commands.{IsDrawnOn, cell_commands, cells_commands, code_of_value};
ghost use Rattle.cept_plot.specs.Commands.{drawn, is_written_anew, opening, value_commands};
ghost use Rattle.cept_plot.specs.inside.Drawing.{StandsDrawn};
ghost use Rattle.cept_plot.specs.Lit.{is_lit};
ghost use Rattle.cept_plot.specs.Painted.{ArePaintedInTurn};
ghost use Rattle.cept_repaint.specs.InTurn.{state_after_all};
ghost use Rattle.cept_plot.specs.inside.ValidPainted.{ArePaintedAndValid};
ghost use Rattle.cept_profile.specs.Changes.{differences};
ghost use Rattle.cept_profile.specs.Look.{looks_of};
ghost use Rattle.cept_profile.specs.State.{Core, core_of};
ghost use Rattle.cept_profile.specs.Valid.{IsValidState};

use crate::field::{Field, value_of};
use cept_codes::{C1Set, Command, Pos};
use cept_outside::Steps;
use cept_repaint::{Glass, Marks, Screen};
use std::sync::ledger::Ledger;

/// Draws a field on the page of a screen. Each cell within the format that isn't protected and shows
/// another value than the field has there is written: value 0 as a space, any other as its block
/// mosaic. Every other cell stays, and so do the protection of all cells, the attributes of rows and
/// of the screen, colours, patterns, format, area and implicit scrolling; control is reset first.
/// What each command changes is painted before the next one, and the marks are those of the last.
/// Takes no memory.
pub fn paint_field<G: Glass, L: Ledger>(
    screen: &mut Screen,
    field: &Field,
    glass: &mut G,
    marks: &mut Marks,
    steps: &mut Steps<L>,
)
    ensures painted { ArePaintedInTurn (drawn (core_of screen.old) (is_lit field.now)) screen.old
        screen.new (G.state glass.old) (G.state glass.new) steps.old steps.new }
    ensures marks { marks.new ≡ differences
        (looks_of (core_of (state_after_all screen.old
        (opening ++ cells_commands (core_of screen.old) (is_lit field.now) 960))))
        (looks_of (core_of screen.new)) }
    ensures drawn { IsDrawnOn (core_of screen.old) (is_lit field.now) (core_of screen.new) }
{
    let implicit = screen.implicit();
    valid_by_type(screen);
    paint_opening(screen, glass, marks, steps);
    paint_cells(screen, field, glass, marks, steps);
    paint_command(screen, Command::Implicit(implicit), glass, marks, steps);
}

/// Tells the prover that a screen's state is valid: asking for its rows does.
fn valid_by_type(screen: &Screen)
    ensures { IsValidState screen.now }
{
    let _rows = screen.rows();
}

/// Resets the control state, and switches implicit scrolling off.
fn paint_opening<G: Glass, L: Ledger>(
    screen: &mut Screen,
    glass: &mut G,
    marks: &mut Marks,
    steps: &mut Steps<L>,
)
    ensures { ArePaintedAndValid opening screen.old screen.new (G.state glass.old)
        (G.state glass.new) steps.old steps.new }
{
    paint_command(
        screen,
        Command::ControlDefaults(C1Set::Parallel),
        glass,
        marks,
        steps,
    );
    paint_command(screen, Command::Implicit(false), glass, marks, steps);
}

/// Writes the cells that have to be, one after the other in reading order.
fn paint_cells<G: Glass, L: Ledger>(
    screen: &mut Screen,
    field: &Field,
    glass: &mut G,
    marks: &mut Marks,
    steps: &mut Steps<L>,
)
    ensures { (k : Core) → StandsDrawn k (is_lit field.now) 0 screen.old
        → ArePaintedAndValid (cells_commands k (is_lit field.now) 960) screen.old screen.new
        (G.state glass.old) (G.state glass.new) steps.old steps.new }
{
    for n in 0..960u16 {
        let at = Pos::from_number(n).unwrap();
        paint_cell(screen, field, at, glass, marks, steps);
    }
}

/// Writes a cell where it has to be.
fn paint_cell<G: Glass, L: Ledger>(
    screen: &mut Screen,
    field: &Field,
    at: Pos,
    glass: &mut G,
    marks: &mut Marks,
    steps: &mut Steps<L>,
)
    ensures { ArePaintedAndValid
        (cell_commands (core_of screen.old) (is_lit field.now) at.row at.column) screen.old
        screen.new (G.state glass.old) (G.state glass.new) steps.old steps.new }
{
    if is_written_anew(screen, field, at) {
        paint_command(
            screen,
            Command::Position(at.row(), at.col()),
            glass,
            marks,
            steps,
        );
        paint_value(screen, field.value(at), glass, marks, steps);
    }
}

/// Whether a cell has to be written: it is within the format, isn't protected, and has another value
/// than the field gives it.
fn is_written_anew(screen: &Screen, field: &Field, at: Pos) -> bool
    ensures { result
        ≡ is_written_anew (core_of screen.now) (is_lit field.now) at.row at.column }
{
    let cell = screen.cell(at);
    at.row() <= screen.rows() && !cell.protected && value_of(&cell.what) != field.value(at)
}

/// Writes a value at the position: 0 as a space, any other as its block mosaic.
fn paint_value<G: Glass, L: Ledger>(
    screen: &mut Screen,
    value: u8,
    glass: &mut G,
    marks: &mut Marks,
    steps: &mut Steps<L>,
)
    requires { value < 64 }
    ensures { ArePaintedAndValid (value_commands value) screen.old screen.new
        (G.state glass.old) (G.state glass.new) steps.old steps.new }
{
    if value == 0 {
        paint_command(screen, Command::Graphic(0x20), glass, marks, steps);
    } else {
        paint_command(screen, Command::LockLeft(1), glass, marks, steps);
        paint_command(
            screen,
            Command::Graphic(code_of_value(value)),
            glass,
            marks,
            steps,
        );
        paint_command(screen, Command::LockLeft(0), glass, marks, steps);
    }
}

/// The code of the block mosaic with this value.
fn code_of_value(value: u8) -> u8
    requires { value < 64 }
    ensures code { result ≡ code_of_value value }
    ensures graphic { IsValidCommand (Command.Graphic result) }
{
    if value < 32 {
        0x20 + value
    } else {
        0x40 + value
    }
}

/// Applies a command, and paints what it changes.
fn paint_command<G: Glass, L: Ledger>(
    screen: &mut Screen,
    command: Command,
    glass: &mut G,
    marks: &mut Marks,
    steps: &mut Steps<L>,
)
    requires { IsValidCommand command }
    ensures painted { ArePaintedAndValid (command ∷ []) screen.old screen.new (G.state glass.old)
        (G.state glass.new) steps.old steps.new }
    ensures marks { marks.new
        ≡ differences (looks_of (core_of screen.old)) (looks_of (core_of screen.new)) }
{
    screen.apply(command, glass, marks, steps);
}
