//! What the commands of a page are applied to.

ghost use Rattle.std.specs.Prelude.{◌≡◌, [], IfOk, IsOk, false, if◌then◌else◌};
ghost use Rattle.std.specs.Option.{option_map};
ghost use Rattle.cept_codes.specs.Command.{IsValidCommand};
ghost use Rattle.cept_run.specs.Events.{NoSequel};
ghost use Rattle.cept_run.specs.Reporting.{painted_target, screen_of, AppliesOn};
ghost use Rattle.cept_run.specs.Words.{is_painted};

use crate::words::Way;
use cept_codes::{Command, NoMemory};
use cept_editor::{Editor, Script};
use cept_outside::Steps;
use cept_plot::Drawing;
use cept_repaint::{Glass, Marks, Screen};
use std::alloc::Global;
use std::sync::ledger::Ledger;

/// What the commands of a page are applied to.
#[derive(Drop)]
pub enum Target {
    /// They aren't applied.
    Nothing,
    /// A screen.
    Screen(Screen),
    /// A screen whose edits can be undone, and the script of the edits.
    Editor(Editor, Script),
    /// A screen, and the drawing that is drawn on it after the page.
    Drawing(Screen, Drawing),
}

impl Target {
    /// A screen before the first command, where commands are painted. Else it takes no memory.
    pub fn new(alloc: Global, way: Way) -> Result<Target, NoMemory>
        ensures start { IfOk result (λ target. target
            ≡ (if is_painted way then painted_target NoSequel [] else Target.Nothing)) }
        ensures memory { is_painted way ≡ false → IsOk result }
    {
        if way.is_painted() {
            Ok(Target::Screen(Screen::new(alloc)?))
        } else {
            Ok(Target::Nothing)
        }
    }

    /// Applies a command and paints what it changes, where there is a screen.
    #[inline(always)]
    pub fn apply<G: Glass, L: Ledger>(
        &mut self,
        command: &Command,
        glass: &mut G,
        marks: &mut Marks,
        steps: &mut Steps<L>,
    )
        requires { IsValidCommand command.now }
        ensures { AppliesOn self.old command.now (G.state glass.old) self.new marks.new
            (G.state glass.new) }
    {
        match self {
            Target::Nothing => {}
            Target::Screen(screen) => screen.apply_from(command, glass, marks, steps),
            Target::Editor(editor, _) => editor.page(command, glass, marks, steps),
            Target::Drawing(screen, _) => screen.apply_from(command, glass, marks, steps),
        }
    }

    /// The screen, where there is one.
    #[inline(always)]
    pub fn screen(&self) -> Option<&Screen>
        ensures { option_map (λ screen. screen.now) result ≡ screen_of self.now }
    {
        match self {
            Target::Nothing => None,
            Target::Screen(screen) => Some(screen),
            Target::Editor(editor, _) => Some(editor.screen()),
            Target::Drawing(screen, _) => Some(screen),
        }
    }
}
