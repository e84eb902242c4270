ghost use Rattle.std.specs.Prelude.{◌≡◌, ℕ, ◌+◌, ◌-◌, ◌^◌, ◌<◌, ◌≤◌, ◌⊎◌, ◌↔◌, min, List, []};
ghost use Rattle.std.specs.Prelude.{length, Some, false};
ghost use Rattle.std.specs.Prelude.{nat_lt, IsErr, IfOk, Contains};
ghost use Rattle.std.specs.Prelude.{if◌then◌else◌};
ghost use Rattle.cept_outside.specs.Causes.{HasCause};
ghost use Rattle.cept_outside.specs.Calls.{faults_of, numbers_with};
ghost use Rattle.cept_outside.specs.SinkState.{Puts, Flushes};

use crate::calls::Calls;
use crate::fault::Failed;
use crate::plain_sink::PlainSink;
use crate::sink::Sink;
use cept_codes::NoMemory;
use std::alloc::Global;

/// A list of bytes, told, with room for so many. A put into a full list fails, and so does a call
/// whose number was given to `fail_at`, counted from 1 over `put` and `flush`. No other call fails.
#[derive(Drop)]
pub struct MemSink {
    list: PlainSink,
    calls: Calls,
}

impl MemSink {
    ghost use Rattle.cept_outside.specs.MemSink.{mem_sink_state, mem_sink_room, mem_sink_count};
    ghost use Rattle.cept_outside.specs.MemSink.{mem_sink_numbers};
    ghost use Rattle.cept_outside.specs.MemSink.{mem_sink_refused};

    /// An empty list with room for so many bytes, whose calls don't fail.
    pub fn new(alloc: Global, room: u32) -> Result<MemSink, NoMemory>
        ensures state { IfOk result (λ sink. mem_sink_state sink
            ≡ record {
              bytes = Some [];
              count = Some 0;
              room = Some room;
              unflushed = false;
              flushes = 0;
              always_flushes = false;
              faults = 0;
            }) }
        ensures room { IfOk result (λ sink. mem_sink_room sink ≡ room) }
        ensures count { IfOk result (λ sink. mem_sink_count sink ≡ 0) }
        ensures numbers { IfOk result (λ sink. mem_sink_numbers sink ≡ []) }
        ensures refused { IfOk result (λ sink. mem_sink_refused sink ≡ 0) }
    {
        Ok(MemSink {
            list: PlainSink::new(alloc, room)?,
            calls: Calls::new(),
        })
    }

    /// Lets the call with this number fail, counted from 1 over `put` and `flush`. Sixteen numbers
    /// are kept, and further ones are ignored.
    pub fn fail_at(&mut self, call: u32)
        ensures numbers { mem_sink_numbers self.new
            ≡ numbers_with (mem_sink_numbers self.old) call }
        ensures count { mem_sink_count self.new ≡ mem_sink_count self.old }
        ensures room { mem_sink_room self.new ≡ mem_sink_room self.old }
        ensures refused { mem_sink_refused self.new ≡ mem_sink_refused self.old }
        ensures others { mem_sink_state self.new ≡ record (mem_sink_state self.old) {
          faults =
              faults_of (mem_sink_numbers self.new) (mem_sink_count self.new)
              (mem_sink_refused self.new);
        } }
    {
        self.calls.keep(call);
    }

    /// The bytes that were put.
    pub fn bytes(&self) -> &[u8]
        ensures { (mem_sink_state self.now).bytes ≡ Some result.now }
    {
        self.list.bytes()
    }
}

impl Sink for MemSink {
    ghost use Rattle.cept_outside.specs.MemSink.{mem_sink_state, mem_sink_room, mem_sink_count};
    ghost use Rattle.cept_outside.specs.MemSink.{mem_sink_numbers};
    ghost use Rattle.cept_outside.specs.MemSink.{mem_sink_refused};
    ghost use Rattle.cept_outside.specs.MemSink.{IsCountedPut};
    ghost use Rattle.cept_outside.specs.Counted.{faults_counted};

    ghost state = { mem_sink_state };

    ghost counted = { λ sink. faults_counted sink.calls.numbers.items sink.calls.count sink.list.refused };

    fn put(&mut self, piece: &[u8]) -> Result<usize, Failed>
        requires { 0 < length piece.now }
        ensures puts { Puts (mem_sink_state self.old) piece.now result (mem_sink_state self.new) }
        ensures cause { HasCause (mem_sink_state self.old).faults (mem_sink_state self.new).faults
            result }

        // It fails exactly so, and appends as much as there is room for.
        ensures fails { (bytes : List ℕ) → (mem_sink_state self.old).bytes ≡ Some bytes
            → IsErr result
            ↔ (Contains (mem_sink_numbers self.old) (mem_sink_count self.old + 1)
            ⊎ (mem_sink_room self.old ≤ length bytes)) }
        ensures most { (bytes : List ℕ) → (mem_sink_state self.old).bytes ≡ Some bytes
            → IfOk result (λ n. n
            ≡ min (mem_sink_room self.old - length bytes) (length piece.now)) }
        ensures refused { (bytes : List ℕ) → (mem_sink_state self.old).bytes ≡ Some bytes
            → mem_sink_refused self.new ≡ (if nat_lt (length bytes) (mem_sink_room self.old)
            then mem_sink_refused self.old else min (mem_sink_refused self.old + 1) (2 ^ 64 - 1)) }
        ensures counted { IsCountedPut self.old self.new }
    {
        let fails = self.calls.next();
        if fails && !self.list.is_full() {
            return Err(Failed);
        }
        self.list.put(piece)
    }

    fn flush(&mut self) -> Result<(), Failed>
        ensures flushes { Flushes (mem_sink_state self.old) result (mem_sink_state self.new) }
        ensures cause { HasCause (mem_sink_state self.old).faults (mem_sink_state self.new).faults
            result }

        // It fails exactly so.
        ensures fails { IsErr result
            ↔ Contains (mem_sink_numbers self.old) (mem_sink_count self.old + 1) }
        ensures refused { mem_sink_refused self.new ≡ mem_sink_refused self.old }
        ensures counted { IsCountedPut self.old self.new }
    {
        if self.calls.next() {
            return Err(Failed);
        }
        self.list.flush()
    }
}
