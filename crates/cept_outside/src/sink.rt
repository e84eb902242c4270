ghost use Rattle.std.specs.Prelude.{◌<◌, ◌^◌, length};
ghost use Rattle.cept_outside.specs.Causes.{HasCause};
ghost use Rattle.cept_outside.specs.SinkState.{SinkState, Puts, Flushes};

use crate::fault::Failed;

/// A place where bytes are put one after the other.
pub trait Sink {
    /// The bytes put, whether some of them aren't flushed, how many flushes succeeded, whether one can
    /// fail, and the count of faults.
    ghost state: { Self → SinkState };

    /// Puts the front of the piece and answers how many bytes, at least one. A failure puts
    /// nothing.
    fn put(&mut self, piece: &[u8]) -> Result<usize, Failed>
        requires { 0 < length piece.now }
        ensures puts { Puts (state self.old) piece.now result (state self.new) }
        ensures cause { HasCause (state self.old).faults (state self.new).faults result };

    /// Hands on all bytes that were put. A failure leaves them as unflushed as they were.
    fn flush(&mut self) -> Result<(), Failed>
        ensures flushes { Flushes (state self.old) result (state self.new) }
        ensures cause { HasCause (state self.old).faults (state self.new).faults result };

    /// A count of faults is a u64.
    ghost counted: { (s : Self) → (state s).faults < 2 ^ 64 };
}
