//! The screen: what is noted, put back and painted.

ghost use Rattle.std.specs.Prelude.{◌≡◌, ◌<◌};

use crate::applying::apply;
use crate::looks::sign;
use cept_codes::{Command, Look, NoMemory};
use cept_outside::Steps;
use cept_repaint::{Delta, Marks, Screen, TapeGlass};
use std::alloc::Global;
use std::marker::Brand;
use std::sync::ledger::{Blank, Ledger};
use std::test::Fail;

/// The paints told by a glass, as row, column and look.
fn told(alloc: Global, glass: &TapeGlass) -> Result<Vec<(u8, u8, Look)>, NoMemory> {
    let mut paints = Vec::new(alloc);
    for (at, look) in glass.paints() {
        paints.push((at.row(), at.col(), *look))?;
    }
    Ok(paints)
}

/// An A that is cleared away and a B in its place, both noted and put back, and then a C.
fn put_back<L: Ledger>(alloc: Global, blank: Blank) -> Result<TapeGlass, NoMemory>
    requires name { blank.name ≡ L.name }
    requires parts { blank.parts ≡ L.parts }
    requires some { 0 < blank.parts }
{
    let mut screen = Screen::new(alloc)?;
    let mut delta = Delta::new(alloc)?;
    let mut glass = TapeGlass::new(alloc, 16)?;
    let mut marks = Marks::new();
    let mut steps = Steps::<L>::new(blank);
    let a = Command::Graphic(0x41);
    apply(&mut screen, a, &mut glass, &mut marks, &mut steps);
    screen.begin_notes(&mut delta);
    let clear = Command::Clear;
    screen.apply_noting(clear, &mut glass, &mut marks, &mut delta, &mut steps);
    let over = Command::Graphic(0x42);
    screen.apply_noting(over, &mut glass, &mut marks, &mut delta, &mut steps);
    screen.restore(&delta, &mut glass, &mut marks, &mut steps);
    let c = Command::Graphic(0x43);
    apply(&mut screen, c, &mut glass, &mut marks, &mut steps);
    Ok(glass)
}

#[test]
fn what_was_noted_is_put_back(rt: HostRuntime) -> Result<(), Fail> {
    let glass = put_back::<Brand>(rt.alloc(), Blank::new(1))?;
    let paints = told(rt.alloc(), &glass)?;
    let wanted = [
        (1, 1, sign(0x41)),
        (1, 1, Look::BLANK),
        (1, 1, sign(0x42)),
        (1, 1, sign(0x41)),
        (1, 2, sign(0x43)),
    ];
    assert!(rt; paints.as_slice() == wanted.as_slice());
    Ok(())
}
