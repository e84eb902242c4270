//! What the edits of a script leave.

ghost use Rattle.std.specs.Prelude.{◌≡◌, ◌<◌, length};

use cept_editor::{Done, Editor, Script, ScriptFault};
use cept_outside::{MemSink, Steps};
use cept_repaint::{GridGlass, Marks};
use std::alloc::Global;
use std::marker::Brand;
use std::sync::ledger::{Blank, Ledger};
use std::test::Fail;

/// A script as it is read.
fn script_of(alloc: Global, text: &[u8]) -> Result<Result<Script, ScriptFault>, Fail> {
    let text = Vec::from_slice(alloc, text)?;
    if text.len() > 1 << 20 {
        return Err("the script is too long".into());
    }
    Ok(Script::read(text))
}

/// What the edits of a script leave.
#[derive(Drop)]
struct Left {
    editor: Editor,
    glass: GridGlass,
    sink: MemSink,
    last: Done,
}

/// An empty page, of which nothing was put.
fn nothing_done(alloc: Global) -> Result<Left, Fail> {
    Ok(Left {
        editor: Editor::new(alloc)?,
        glass: GridGlass::new(alloc)?,
        sink: MemSink::new(alloc, 4096)?,
        last: Done::Done,
    })
}

/// Makes an edit of a script, and puts its change lines.
fn make_edit<L: Ledger>(
    left: &mut Left,
    script: &Script,
    k: u32,
    steps: &mut Steps<L>,
) -> Result<(), Fail>
    requires { k < length script.now }
{
    let mut marks = Marks::new();
    left.last = left.editor.line(
        script,
        k,
        &mut left.glass,
        &mut marks,
        &mut left.sink,
        true,
        steps,
    )?;
    Ok(())
}

/// Makes the edits of a script after an empty page.
fn make_edits<L: Ledger>(alloc: Global, blank: Blank, text: &[u8]) -> Result<Left, Fail>
    requires name { blank.name ≡ L.name }
    requires parts { blank.parts ≡ L.parts }
    requires some { 0 < blank.parts }
{
    let script = script_of(alloc, text)??;
    let mut left = nothing_done(alloc)?;
    let mut steps = Steps::<L>::new(blank);
    for k in 0..script.len() {
        make_edit(&mut left, &script, k, &mut steps)?;
    }
    Ok(left)
}

/// A pen that was undone is gone, and one that was redone is there.
#[test]
fn an_undo_and_a_redo_bring_back_the_pen(rt: HostRuntime) -> Result<(), Fail> {
    let text = b"c1 1\nundo\nredo\ntext A".as_slice();
    let left = make_edits::<Brand>(rt.alloc(), Blank::new(1), text)?;
    assert!(rt; left.last == Done::Done);
    assert!(rt; left.editor.kept() == 2 && left.editor.undone() == 0);
    assert!(rt; left.sink.bytes() == b"4 1 1 P41 11.00 F00 000 S---\n".as_slice());
    Ok(())
}
