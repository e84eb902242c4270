ghost use Rattle.std.specs.Prelude.{◌≡◌, ◌+◌, ◌-◌, ◌<◌, ◌≤◌, min, [], length, None, false};
ghost use Rattle.std.specs.Prelude.{nat_lt, IsOk};
ghost use Rattle.std.specs.Prelude.{IfOk, OnOk, if◌then◌else◌};
ghost use Rattle.std.specs.Io.KnownBytes.{Keeps, WriteAppends};
ghost use Rattle.cept_outside.specs.Causes.{HasCause};
ghost use Rattle.cept_outside.specs.SinkState.{Puts, Flushes};

use crate::fault::Failed;
use crate::machine::Writer;
use crate::sink::Sink;
use crate::slice_sink::put_behind;
use std::io::Write;

/// How many bytes are held back at most.
const ROOM: usize = 4096;

/// A sink on a writer, as standard output. It tells nothing of bytes, and each error of the writer
/// is a fault.
///
/// It holds up to 4096 bytes back until more are put or it is flushed. So who ends without a flush
/// calls `hand_on`: no byte that was put is lost where that succeeds.
#[derive(Drop)]
pub struct StdSink<W> {
    writer: Writer<W>,
    // Room that is never emptied: what is held back stands in it from `sent` to `end`.
    held: [u8; ROOM],
    sent: usize,
    end: usize,
    ghost forward: { sent ≤ end },
    ghost within: { end ≤ 4096 },
}

impl<W: Write> StdSink<W> {
    ghost use Rattle.cept_outside.specs.StdSink.{std_sink_state, held_bytes, free_room};
    ghost use Rattle.cept_outside.specs.StdSink.{IsHandedOn, written_and_held};

    /// Nothing is held back.
    pub fn new(out: W) -> StdSink<W>
        ensures state { std_sink_state result
            ≡ record {
              bytes = None;
              count = None;
              room = None;
              unflushed = false;
              flushes = 0;
              always_flushes = false;
              faults = 0;
            } }
        ensures held { held_bytes result ≡ [] }
        ensures free { free_room result ≡ 4096 }
        ensures kept { Keeps (W.contents out) (written_and_held W.contents result) }
    {
        StdSink {
            writer: Writer::new(out),
            held: [0; ROOM],
            sent: 0,
            end: 0,
        }
    }

    /// Writes out what is held back. This is no flush: what was unflushed stays so.
    pub fn hand_on(&mut self) -> Result<(), Failed>
        ensures cause { HasCause (std_sink_state self.old).faults (std_sink_state self.new).faults
            result }
        ensures unflushed { (std_sink_state self.new).unflushed
            ≡ (std_sink_state self.old).unflushed }
        ensures flushes { (std_sink_state self.new).flushes ≡ (std_sink_state self.old).flushes }
        ensures handed_on { IsHandedOn W.contents self.old self.new result }
        ensures free { OnOk result (free_room self.new ≡ 4096) }
    {
        while self.sent < self.end {
            let held: &[u8] = &self.held;
            let count = self.writer.write(&held[self.sent..self.end])?;
            self.sent += count;
        }
        self.sent = 0;
        self.end = 0;
        Ok(())
    }
}

impl<W: Write> Sink for StdSink<W> {
    ghost use Rattle.cept_outside.specs.StdSink.{std_sink_state, held_bytes, free_room};
    ghost use Rattle.cept_outside.specs.StdSink.{IsHandedOn, written_and_held};

    ghost state = { std_sink_state };

    ghost counted = { λ sink. sink.writer.faults.counted };

    fn put(&mut self, piece: &[u8]) -> Result<usize, Failed>
        requires { 0 < length piece.now }
        ensures puts { Puts (std_sink_state self.old) piece.now result (std_sink_state self.new) }
        ensures cause { HasCause (std_sink_state self.old).faults (std_sink_state self.new).faults
            result }
        ensures kept { WriteAppends (written_and_held W.contents self.old)
            (written_and_held W.contents self.new)
            result piece.now }

        // It fails only where it is full, and puts as much as there is room for.
        ensures fails { 0 < free_room self.old → IsOk result }
        ensures most { IfOk result (λ n. n
            ≡ min (if nat_lt 0 (free_room self.old) then free_room self.old
            else 4096) (length piece.now)) }
    {
        if self.end == ROOM {
            self.hand_on()?;
        }
        let count = put_behind(piece, self.end, &mut self.held);
        self.end += count;
        Ok(count)
    }

    fn flush(&mut self) -> Result<(), Failed>
        ensures flushes { Flushes (std_sink_state self.old) result (std_sink_state self.new) }
        ensures cause { HasCause (std_sink_state self.old).faults (std_sink_state self.new).faults
            result }
        ensures handed_on { IsHandedOn W.contents self.old self.new result }
    {
        self.hand_on()?;
        self.writer.flush()
    }
}
