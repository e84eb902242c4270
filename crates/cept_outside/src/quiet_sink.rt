ghost use Rattle.std.specs.Prelude.{◌≡◌, ◌+◌, ◌-◌, ◌^◌, ◌<◌, min, length, Some, None, Ok, IsOk, false, true};
ghost use Rattle.cept_outside.specs.Causes.{HasCause};
ghost use Rattle.cept_outside.specs.SinkState.{Puts, Flushes};

use crate::fault::Failed;
use crate::sink::Sink;

/// A sink that counts the bytes put, up to the greatest u64, and keeps none of them. No call fails,
/// and its count of faults is 0 forever.
#[derive(Drop)]
pub struct QuietSink {
    count: u64,
    unflushed: bool,
    flushes: u64,
}

impl QuietSink {
    ghost use Rattle.cept_outside.specs.QuietSink.{quiet_sink_state, quiet_sink_count};

    /// A sink that nothing was put into.
    pub fn new() -> QuietSink
        ensures state { quiet_sink_state result
            ≡ record {
              bytes = None;
              count = Some 0;
              room = None;
              unflushed = false;
              flushes = 0;
              always_flushes = true;
              faults = 0;
            } }
        ensures count { quiet_sink_count result ≡ 0 }
    {
        QuietSink {
            count: 0,
            unflushed: false,
            flushes: 0,
        }
    }

    /// How many bytes were put, up to the greatest u64.
    pub fn count(&self) -> u64
        ensures { result ≡ quiet_sink_count self.now }
    {
        self.count
    }
}

impl Sink for QuietSink {
    ghost use Rattle.cept_outside.specs.QuietSink.{quiet_sink_state, quiet_sink_count};
    ghost use Rattle.cept_outside.specs.Counted.{none_counted};

    ghost state = { quiet_sink_state };

    ghost counted = { λ _. none_counted };

    fn put(&mut self, piece: &[u8]) -> Result<usize, Failed>
        requires { 0 < length piece.now }
        ensures puts { Puts (quiet_sink_state self.old) piece.now result
            (quiet_sink_state self.new) }
        ensures cause { HasCause (quiet_sink_state self.old).faults
            (quiet_sink_state self.new).faults result }
        ensures whole { result ≡ Ok (length piece.now) }
        ensures count { quiet_sink_count self.new
            ≡ min (quiet_sink_count self.old + length piece.now) (2 ^ 64 - 1) }
    {
        self.count = self.count.saturating_add(piece.len() as u64);
        self.unflushed = true;
        Ok(piece.len())
    }

    fn flush(&mut self) -> Result<(), Failed>
        ensures flushes { Flushes (quiet_sink_state self.old) result (quiet_sink_state self.new) }
        ensures cause { HasCause (quiet_sink_state self.old).faults
            (quiet_sink_state self.new).faults result }
        ensures never_fails { IsOk result }
        ensures count { quiet_sink_count self.new ≡ quiet_sink_count self.old }
    {
        self.unflushed = false;
        self.flushes = self.flushes.saturating_add(1);
        Ok(())
    }
}
