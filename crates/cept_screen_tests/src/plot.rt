//! A page that is drawn on.

ghost use Rattle.std.specs.Prelude.{◌≡◌, ◌<◌, ◌≤◌, ◌^◌, length};

use crate::applying::{Page, painted};
use cept_codes::{Glyph, Pos, SetId, What};
use cept_outside::Steps;
use cept_plot::{DrawFault, Drawing, Field, paint_field};
use cept_repaint::{Glass, Marks, Screen};
use std::alloc::Global;
use std::marker::Brand;
use std::sync::ledger::{Blank, Ledger};
use std::test::Fail;

/// A drawing as it is read.
fn drawing_of(alloc: Global, lines: &[u8]) -> Result<Drawing, DrawFault>
    requires { length lines.now ≤ 2 ^ 20 }
{
    Drawing::read(alloc, lines)
}

/// The field of a screen.
fn field_of(screen: &Screen) -> Field {
    Field::of(screen)
}

/// The field of a screen with a drawing on it.
fn field_with(screen: &Screen, drawing: &Drawing) -> Field {
    let mut field = field_of(screen);
    field.draw(drawing);
    field
}

/// Draws on a page.
fn draw<L: Ledger>(page: &mut Page, blank: Blank, drawing: &Drawing)
    requires name { blank.name ≡ L.name }
    requires parts { blank.parts ≡ L.parts }
    requires some { 0 < blank.parts }
{
    let field = field_with(&page.screen, drawing);
    let mut marks = Marks::new();
    let mut steps = Steps::<L>::new(blank);
    paint_field(
        &mut page.screen,
        &field,
        &mut page.glass,
        &mut marks,
        &mut steps,
    );
}

/// The sign in a cell, `None` where there is none.
fn sign_at(screen: &Screen, row: u8, column: u8) -> Option<Glyph> {
    match screen.cell(Pos::new(row, column)?).what {
        What::Serial(glyph) => Some(glyph),
        What::Parallel(glyph, _) => Some(glyph),
        _ => None,
    }
}

/// A block mosaic.
fn mosaic(code: u8) -> Option<Glyph> {
    Some(Glyph {
        set: SetId::M,
        code,
        accent: 0,
    })
}

/// A line over two cells, the first of which has a letter; what is painted is what the screen shows.
#[test]
fn a_drawing_is_painted(rt: HostRuntime) -> Result<(), Fail> {
    let drawing = drawing_of(rt.alloc(), b"# a drawing\nline 0 0 3 1".as_slice())?;
    let mut page = painted::<Brand>(rt.alloc(), Blank::new(1))?;
    draw::<Brand>(&mut page, Blank::new(1), &drawing);
    assert!(rt; field_of(&page.screen).lit(3, 1));
    assert!(rt; sign_at(&page.screen, 1, 1) == mosaic(0x23));
    assert!(rt; sign_at(&page.screen, 1, 2) == mosaic(0x2C));
    let at = Pos::new(1, 2).ok_or("no place")?;
    assert!(rt; page.glass.shown(at) == page.screen.look(at));
    Ok(())
}
