//! Takes a script from the shelf and reads its edits, or a drawing and reads its figures.

ghost use Rattle.std.specs.Prelude.{◌≡◌, ◌^◌, IfOk, IfErr, false};
ghost use Rattle.cept_run.specs.Course.{Gives, Scripts, Drawings};
ghost use Rattle.cept_run.specs.Events.{Edits, Figures};
ghost use Rattle.cept_run.specs.Page.{KeepsShelf};
ghost use Rattle.cept_report.specs.Text.{script_fault_line};
ghost use Rattle.cept_run.specs.ScriptReading.{ScriptEnds};
ghost use Rattle.cept_run.specs.ScriptReading.{SelectsScript};
ghost use Rattle.cept_run.specs.Taking.{AreLeft, TakesWhole};
ghost use Rattle.cept_run.specs.inside.ScriptReading.{TakingStops, Refuses, StopsAt, as_script_fault};

use crate::page::Stop;
use cept_codes::LineReason;
use cept_editor::{Script, ScriptFault};
use cept_outside::{Shelf, Sink};
use cept_plot::{DrawFault, Drawing};
use cept_report::put_script_fault;
use std::alloc::Global;

/// The greatest number of bytes of a script or a drawing.
const LIMIT: usize = 1 << 20;

/// The number of bytes that are taken at once at most.
const PIECE: usize = 4096;

/// Takes the selected script or drawing piece by piece to its end.
fn take_script<F: Shelf>(alloc: Global, shelf: &mut F) -> Result<Vec<u8>, Stop>
    requires selected { (F.state shelf.old).taken ≡ 0 }
    requires unended { (F.state shelf.old).ended ≡ false }
    ensures whole { IfOk result (λ bytes. TakesWhole (AreLeft (F.state shelf.old)) (2 ^ 20)
        bytes.items (F.state shelf.old) (F.state shelf.new)) }
    ensures stopped { IfErr result (λ stop. TakingStops (AreLeft (F.state shelf.old))
        (F.state shelf.old) stop (F.state shelf.new)) }
    ensures shelf { KeepsShelf (F.state shelf.old) (F.state shelf.new) }
{
    let mut script = Vec::new(alloc);
    let mut piece = [0u8; PIECE];
    loop {
        let Ok(count) = shelf.take(&mut piece) else {
            return Err(Stop::ReadFault);
        };
        if count == 0 {
            return Ok(script);
        }
        if count > LIMIT - script.len() {
            return Err(Stop::TooLong);
        }
        let Ok(()) = script.extend_from_slice(&piece[..count]) else {
            return Err(Stop::NoMemory);
        };
    }
}

/// Selects a script or a drawing and takes it.
fn take_file<F: Shelf>(alloc: Global, name: &str, shelf: &mut F) -> Result<Vec<u8>, Stop>
    ensures whole { IfOk result (λ bytes. TakesWhole (Gives (F.state shelf.old) name.now) (2 ^ 20)
        bytes.items (F.state shelf.old) (F.state shelf.new)) }
    ensures stopped { IfErr result (λ stop. TakingStops (Gives (F.state shelf.old) name.now)
        (F.state shelf.old) stop (F.state shelf.new)) }
    ensures shelf { SelectsScript name.now (F.state shelf.old) (F.state shelf.new) }
{
    let Ok(()) = shelf.select(name) else {
        return Err(Stop::ReadFault);
    };
    take_script(alloc, shelf)
}

/// Puts the line of a script's fault and flushes. Answers why the run stops.
fn refuse_script<T: Sink>(line: u32, reason: LineReason, sink: &mut T) -> Stop
    ensures { Refuses (script_fault_line line reason) (T.state sink.old) result (T.state sink.new) }
{
    let Ok(()) = put_script_fault(sink, line, reason) else {
        return Stop::WriteFault;
    };
    let Ok(()) = sink.flush() else {
        return Stop::WriteFault;
    };
    Stop::Script
}

/// Puts the line of a fault, where a line is outside the grammar. Answers why the run stops.
fn stop_at<T: Sink>(fault: ScriptFault, sink: &mut T) -> Stop
    ensures { StopsAt fault (T.state sink.old) result (T.state sink.new) }
{
    match fault {
        ScriptFault::NoMemory => Stop::NoMemory,
        ScriptFault::BadLine(line, reason) => refuse_script(line, reason, sink),
    }
}

/// Selects a script, takes it and reads its edits. Where a line is outside the grammar, it puts the
/// line that says so.
pub fn read_script<F: Shelf, T: Sink>(
    alloc: Global,
    name: &str,
    shelf: &mut F,
    sink: &mut T,
) -> Result<Script, Stop>
    ensures ends { ScriptEnds Scripts Edits name.now (F.state shelf.old)
        (T.state sink.old) result (F.state shelf.new) (T.state sink.new) }
    ensures shelf { SelectsScript name.now (F.state shelf.old) (F.state shelf.new) }
{
    let bytes = take_file(alloc, name, shelf)?;
    match Script::read(bytes) {
        Ok(script) => Ok(script),
        Err(fault) => Err(stop_at(fault, sink)),
    }
}

/// The fault of a drawing as that of a script.
fn as_script_fault(fault: DrawFault) -> ScriptFault
    ensures { result ≡ as_script_fault fault }
{
    match fault {
        DrawFault::BadLine(line, reason) => ScriptFault::BadLine(line, reason),
        DrawFault::NoMemory => ScriptFault::NoMemory,
    }
}

/// Selects a drawing, takes it and reads its figures. Where a line is outside the grammar, it puts
/// the line that says so.
pub fn read_drawing<F: Shelf, T: Sink>(
    alloc: Global,
    name: &str,
    shelf: &mut F,
    sink: &mut T,
) -> Result<Drawing, Stop>
    ensures ends { ScriptEnds Drawings Figures name.now (F.state shelf.old)
        (T.state sink.old) result (F.state shelf.new) (T.state sink.new) }
    ensures shelf { SelectsScript name.now (F.state shelf.old) (F.state shelf.new) }
{
    let bytes = take_file(alloc, name, shelf)?;
    match Drawing::read(alloc, bytes.as_slice()) {
        Ok(drawing) => Ok(drawing),
        Err(fault) => Err(stop_at(as_script_fault(fault), sink)),
    }
}
