//! Puts a generated page, or has it read. It is taken piece by piece: its bytes are never all in
//! memory.

ghost use Rattle.std.specs.Prelude.{[], false};
ghost use Rattle.cept_editor.specs.Made.{Output, output_of};
ghost use Rattle.cept_generator.specs.Generated.{generated};
ghost use Rattle.cept_outside.specs.SinkState.{PutsText};
ghost use Rattle.cept_run.specs.Page.{PutsEnd, ReadsGenerated};
ghost use Rattle.cept_run.specs.Reporting.{HasRead, plan_in};

use crate::decoder::Decoder;
use crate::page::Stop;
use cept_generator::{Generator, generated_pages_are_short};
use cept_outside::{Sink, Steps, WriteFault, put_all};
use cept_parser::laws::reading_goes_on;
use cept_repaint::Glass;
use std::sync::ledger::Ledger;

/// Puts the generated page of a number.
fn put_pieces<T: Sink>(number: u32, sink: &mut T) -> Result<(), WriteFault>
    ensures { PutsText (T.state sink.old) (generated number) result (T.state sink.new) }
{
    let mut generator = Generator::new(number);
    while let Some(piece) = generator.next() {
        put_all(sink, piece.as_slice())?;
    }
    Ok(())
}

/// Puts the generated page of a number and flushes. No item of it is refused.
pub fn put_generated<T: Sink>(number: u32, sink: &mut T) -> Result<bool, Stop>
    ensures { PutsEnd (generated number) false (T.state sink.old) result (T.state sink.new) }
{
    put_pieces(number, sink)?;
    let Ok(()) = sink.flush() else {
        return Err(Stop::WriteFault);
    };
    Ok(false)
}

/// Reads the generated page of a number and reports its items, to the end. Answers how many bytes
/// it has.
pub fn read_generated<T: Sink, G: Glass, L: Ledger>(
    decoder: &mut Decoder,
    number: u32,
    sink: &mut T,
    glass: &mut G,
    steps: &mut Steps<L>,
) -> Result<u64, WriteFault>
    requires fresh { (start : Output)
        → HasRead (plan_in decoder.old.reporter) decoder.old [] start start }
    ensures { ReadsGenerated (plan_in decoder.old.reporter) number
        (output_of (T.state sink.old) (G.state glass.old)) result decoder.new.reporter
        (output_of (T.state sink.new) (G.state glass.new)) }
{
    // Laws: the items of more bytes are those of the first, and then others; and a generated page
    // is short.
    reading_goes_on();
    generated_pages_are_short();
    let mut generator = Generator::new(number);
    let mut bytes = 0u64;
    while let Some(piece) = generator.next() {
        decoder.read_piece(piece.as_slice(), sink, glass, steps)?;
        bytes += piece.len() as u64;
    }
    decoder.finish(sink, glass, steps)?;
    Ok(bytes)
}
