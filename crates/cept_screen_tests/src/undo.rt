//! An edit of a screen that is undone and redone.

ghost use Rattle.std.specs.Prelude.{◌≡◌, ◌<◌};

use crate::looks::sign;
use cept_codes::{Command, NoMemory, Pos};
use cept_outside::Steps;
use cept_repaint::{Glass, GridGlass, Marks, Screen};
use cept_undo::{Redone, Undo};
use std::alloc::Global;
use std::marker::Brand;
use std::sync::ledger::{Blank, Ledger};
use std::test::Fail;

/// An edit that writes an A, which is undone and redone, and one more redo.
fn undone_and_redone<L: Ledger>(
    alloc: Global,
    blank: Blank,
) -> Result<(GridGlass, Redone, Redone), NoMemory>
    requires name { blank.name ≡ L.name }
    requires parts { blank.parts ≡ L.parts }
    requires some { 0 < blank.parts }
{
    let mut screen = Screen::new(alloc)?;
    let mut glass = GridGlass::new(alloc)?;
    let mut marks = Marks::new();
    let mut steps = Steps::<L>::new(blank);
    let mut undo = Undo::new(alloc)?;
    let a = Command::Graphic(0x41);
    undo.begin(&screen);
    undo.apply(&mut screen, a, &mut glass, &mut marks, &mut steps);
    undo.commit();
    let _ = undo.undo(&mut screen, &mut glass, &mut marks, &mut steps);
    let first = undo.redo(&mut screen, &mut glass, &mut marks, &mut steps);
    let second = undo.redo(&mut screen, &mut glass, &mut marks, &mut steps);
    Ok((glass, first, second))
}

#[test]
fn a_redo_brings_an_edit_back(rt: HostRuntime) -> Result<(), Fail> {
    let (glass, first, second) = undone_and_redone::<Brand>(rt.alloc(), Blank::new(1))?;
    assert!(rt; first == Redone::Redone);
    assert!(rt; second == Redone::Nothing);
    assert!(rt; glass.shown(Pos::new(1, 1).ok_or("no place")?) == sign(0x41));
    Ok(())
}
