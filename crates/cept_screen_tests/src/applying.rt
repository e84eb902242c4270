//! Commands as the tests apply them, and a page that several of them begin with.

ghost use Rattle.std.specs.Prelude.{◌≡◌, ◌<◌};
ghost use Rattle.cept_codes.specs.Command.{IsValidCommand};

use cept_codes::{Command, NoMemory};
use cept_outside::Steps;
use cept_repaint::{Glass, GridGlass, Marks, Screen};
use std::alloc::Global;
use std::sync::ledger::{Blank, Ledger};

/// Applies a command. It ensures nothing, so that what is applied after it isn't told the contract of
/// `Screen::apply`.
pub(crate) fn apply<G: Glass, L: Ledger>(
    screen: &mut Screen,
    command: Command,
    glass: &mut G,
    marks: &mut Marks,
    steps: &mut Steps<L>,
)
    requires { IsValidCommand command }
{
    screen.apply(command, glass, marks, steps);
}

/// A screen, and the glass on which it was painted.
#[derive(Drop)]
pub(crate) struct Page {
    pub screen: Screen,
    pub glass: GridGlass,
}

/// A page with a flashing A at the first place.
pub(crate) fn painted<L: Ledger>(alloc: Global, blank: Blank) -> Result<Page, NoMemory>
    requires name { blank.name ≡ L.name }
    requires parts { blank.parts ≡ L.parts }
    requires some { 0 < blank.parts }
{
    let mut screen = Screen::new(alloc)?;
    let mut glass = GridGlass::new(alloc)?;
    let mut marks = Marks::new();
    let mut steps = Steps::<L>::new(blank);
    let flash = Command::C1(8);
    apply(&mut screen, flash, &mut glass, &mut marks, &mut steps);
    let a = Command::Graphic(0x41);
    apply(&mut screen, a, &mut glass, &mut marks, &mut steps);
    Ok(Page { screen, glass })
}
