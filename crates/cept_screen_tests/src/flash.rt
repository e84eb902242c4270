//! A screen whose signs flash.

use crate::applying::{Page, painted};
use cept_codes::{Look, Pos, Shape};
use cept_flash::Blink;
use cept_repaint::Marks;
use std::marker::Brand;
use std::sync::ledger::Blank;
use std::test::Fail;

/// Goes to the next phase. Answers how many places change, whether this one does, and whether it is seen.
fn turned(blink: &mut Blink, marks: &mut Marks, at: Pos) -> (u16, bool, bool) {
    blink.turn(marks);
    (marks.len(), marks.has(at), blink.now(at) != Look::BLANK)
}

/// A terminal turns the phase by a timer of its own, and shows the marked places anew.
#[test]
fn a_flashing_sign_is_seen_at_three_phases_of_six(rt: HostRuntime) -> Result<(), Fail> {
    let Page { screen, .. } = painted::<Brand>(rt.alloc(), Blank::new(1))?;
    let mut blink = Blink::new(rt.alloc())?;
    let mut marks = Marks::new();
    blink.start(&screen, &mut marks);
    let at = Pos::new(1, 1).ok_or("no place")?;
    assert!(rt; marks.len() == 1 && marks.has(at));
    assert!(rt; matches!(blink.now(at).shape, Shape::Char(_)));
    for changed in [0, 0, 1, 0, 0, 1] {
        let (count, has, seen) = turned(&mut blink, &mut marks, at);
        assert!(rt; count == changed && has == (changed == 1));
        assert!(rt; seen == (blink.phase() < 3));
    }
    Ok(())
}
