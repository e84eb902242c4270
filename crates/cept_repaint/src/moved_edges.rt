ghost use Rattle.std.specs.Prelude.{◌≡◌};
ghost use Rattle.cept_repaint.specs.inside.MovedEdges.{may_move_edges};

use cept_codes::Command;

/// Whether a command may change which rows are last: it sets the number of rows, makes or deletes an
/// area, or chooses the revision of the rules.
#[inline(always)]
pub(crate) fn may_move_edges(command: &Command) -> bool
    ensures { result ≡ may_move_edges command.now }
{
    match command {
        Command::Format(_, _)
        | Command::FullDefaults(_)
        | Command::AreaCreate(_, _)
        | Command::AreaDelete(_, _)
        | Command::Revision(_) => true,
        _ => false,
    }
}
