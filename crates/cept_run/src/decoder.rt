//! Reads a page of bytes, and has its items reported. It knows no words and no files.

ghost use Rattle.std.specs.Prelude.{◌≡◌, ℕ, ◌+◌, ◌*◌, ◌^◌, ◌<◌, ◌≤◌, ◌∷◌, [], List};
ghost use Rattle.std.specs.Prelude.{false, length, if◌then◌else◌, nat_lt};
ghost use Rattle.cept_parser.specs.Items.{closed_items};
ghost use Rattle.cept_outside.specs.SinkState.{PutsText};
ghost use Rattle.cept_run.specs.Events.{end_text};
ghost use Rattle.cept_editor.specs.Made.{Output, output_of};

use crate::reporter::Reporter;
use crate::target::Target;
use crate::words::ReportOptions;
use cept_flash::Blink;
use cept_outside::{Sink, Steps, WriteFault};
use cept_parser::laws::reading_goes_on;
use cept_parser::{Closed, Parser};
use cept_repaint::Glass;
use std::marker::Model;
use std::sync::ledger::Ledger;

/// What reads a page: the parser of its bytes, and the reporter of its items.
#[derive(Drop)]
pub struct Decoder {
    parser: Parser,
    reporter: Reporter,
}

impl Model for Decoder {
    ghost use Rattle.std.specs.Prelude.{◌≤◌, ◌+◌, ◌*◌, if◌then◌else◌};
    ghost use Rattle.cept_run.specs.Reporting.{DecoderState};

    ghost Value = { DecoderState };

    ghost view = { λ d. record { parser = d.parser; reporter = d.reporter } };

    // A byte closes two items at most, and so does the end.
    ghost invariant = { λ d. d.reporter.items
        ≤ 2 * d.parser.place + (if d.parser.finished then 2 else 0) };
}

impl Decoder {
    ghost use Rattle.cept_run.specs.Reporting.{Plan, StandsAtEnd, HasRead, ReadsOn, ReadsToEnd};
    ghost use Rattle.cept_run.specs.Reporting.{EditsOn, HasBlink, target_at, remaining_at_end};

    /// A decoder before the first byte, with its options and what commands are applied to.
    pub fn new(options: ReportOptions, target: Target) -> Decoder
        ensures options { result.reporter.options ≡ options }
        ensures target { result.reporter.target ≡ target }
        ensures read { (plan : Plan) → plan.options ≡ options → target ≡ target_at plan []
            → (start : Output) → HasRead plan result [] start start }
    {
        Decoder {
            parser: Parser::new(),
            reporter: Reporter::new(options, target),
        }
    }

    /// Reads one byte and reports the items that it closes. They stand there until the next byte.
    fn read_byte<T: Sink, G: Glass, L: Ledger>(
        &mut self,
        byte: u8,
        closed: &mut Closed,
        sink: &mut T,
        glass: &mut G,
        steps: &mut Steps<L>,
    ) -> Result<(), WriteFault>
        requires running { self.old.parser.finished ≡ false }
        requires few { self.old.parser.place < 2 ^ 32 }
        ensures { ReadsOn self.old (byte ∷ [])
            (output_of (T.state sink.old) (G.state glass.old)) result self.new
            (output_of (T.state sink.new) (G.state glass.new)) }
    {
        self.parser.push_into(byte, closed);
        self.reporter
            .report_items(closed.as_slice(), sink, glass, steps)
    }

    /// Reads a piece of the page.
    pub fn read_piece<T: Sink, G: Glass, L: Ledger>(
        &mut self,
        piece: &[u8],
        sink: &mut T,
        glass: &mut G,
        steps: &mut Steps<L>,
    ) -> Result<(), WriteFault>
        requires running { self.old.parser.finished ≡ false }
        requires few { self.old.parser.place + length piece.now < 2 ^ 32 }
        ensures { ReadsOn self.old piece.now
            (output_of (T.state sink.old) (G.state glass.old)) result self.new
            (output_of (T.state sink.new) (G.state glass.new)) }
    {
        // A law: the items of more bytes are those of the first, and then others.
        reading_goes_on();
        let mut closed = Closed::new();
        for byte in piece {
            self.read_byte(*byte, &mut closed, sink, glass, steps)?;
        }
        Ok(())
    }

    /// Ends the page and reports the item that is left.
    pub fn finish<T: Sink, G: Glass, L: Ledger>(
        &mut self,
        sink: &mut T,
        glass: &mut G,
        steps: &mut Steps<L>,
    ) -> Result<(), WriteFault>
        requires running { self.old.parser.finished ≡ false }
        requires few { self.old.parser.place < 2 ^ 32 }
        ensures { ReadsToEnd self.old
            (output_of (T.state sink.old) (G.state glass.old)) result self.new
            (output_of (T.state sink.new) (G.state glass.new)) }
    {
        let items = self.parser.finish();
        self.reporter
            .report_items(items.as_slice(), sink, glass, steps)
    }

    /// Makes the edits of the script or draws the drawing, if there is one.
    pub fn make_edits<T: Sink, G: Glass, L: Ledger>(
        &mut self,
        sink: &mut T,
        glass: &mut G,
        steps: &mut Steps<L>,
    ) -> Result<(), WriteFault>
        ensures { EditsOn self.old.reporter
            (output_of (T.state sink.old) (G.state glass.old)) result self.new.reporter
            (output_of (T.state sink.new) (G.state glass.new)) }
    {
        self.reporter.make_edits(sink, glass, steps)
    }

    /// Puts the text at the end of a page of so many bytes.
    pub fn put_end<T: Sink, G: Glass>(
        &self,
        bytes: u64,
        blink: &mut Option<Blink>,
        sink: &mut T,
        glass: &G,
    ) -> Result<(), WriteFault>
        ensures { (plan : Plan) (page : List ℕ)
            → StandsAtEnd plan self.now.reporter (closed_items page)
            → HasBlink plan.options.end blink.old → bytes ≡ length page
            → PutsText (T.state sink.old) (end_text plan.options (G.state glass.now).grid page
            (remaining_at_end plan (closed_items page))) result (T.state sink.new) }
    {
        self.reporter.put_end(bytes, blink, sink, glass)
    }

    /// Whether an item was refused.
    pub fn has_refusal(&self) -> bool
        ensures { result ≡ nat_lt 0 self.now.reporter.refused }
    {
        self.reporter.has_refusal()
    }
}
