ghost use Rattle.std.specs.Prelude.{◌≡◌, ℕ, ◌+◌, ◌-◌, ◌^◌, ◌<◌, ◌≤◌, ◌↔◌, min, []};
ghost use Rattle.std.specs.Prelude.{length, Some, false, true};
ghost use Rattle.std.specs.Prelude.{nat_le, nat_lt, IsErr, IsOk, IfOk, vec_len, vec_capacity};
ghost use Rattle.std.specs.Prelude.{if◌then◌else◌};
ghost use Rattle.cept_outside.specs.Causes.{HasCause};
ghost use Rattle.cept_outside.specs.SinkState.{Puts, Flushes};

use crate::fault::Failed;
use crate::sink::Sink;
use cept_codes::NoMemory;
use std::alloc::Global;

/// A list of bytes, told, with room for so many. A put into a full list fails, and no other call.
#[derive(Drop)]
pub struct PlainSink {
    bytes: Vec<u8>,
    room: usize,
    unflushed: bool,
    flushes: u64,
    refused: u64,
    ghost reserved: { room ≤ vec_capacity bytes },
    ghost within: { vec_len bytes ≤ room },
    ghost full: { 0 < refused → room ≤ vec_len bytes },
    ghost counted: { refused < 2 ^ 64 },
}

impl PlainSink {
    ghost use Rattle.cept_outside.specs.PlainSink.{plain_sink_state, plain_sink_room};
    ghost use Rattle.cept_outside.specs.PlainSink.{plain_sink_bytes};

    /// An empty list with room for so many bytes.
    pub fn new(alloc: Global, room: u32) -> Result<PlainSink, NoMemory>
        ensures { IfOk result (λ sink. plain_sink_state sink
            ≡ record {
              bytes = Some [];
              count = Some 0;
              room = Some room;
              unflushed = false;
              flushes = 0;
              always_flushes = true;
              faults = 0;
            }) }
    {
        let room = room as usize;
        Ok(PlainSink {
            bytes: Vec::with_capacity(alloc, room)?,
            room,
            unflushed: false,
            flushes: 0,
            refused: 0,
        })
    }

    /// The bytes that were put, as many as there is room for at most. A fault was counted only where
    /// there is no room for more.
    pub fn bytes(&self) -> &[u8]
        ensures bytes { (plain_sink_state self.now).bytes ≡ Some result.now }
        ensures within { (room : ℕ) → (plain_sink_state self.now).room ≡ Some room
            → length result.now ≤ room }
        ensures full { 0 < (plain_sink_state self.now).faults
            → (plain_sink_state self.now).room ≡ Some (length result.now) }
    {
        self.bytes.as_slice()
    }

    /// Whether there is no room for more.
    pub(crate) fn is_full(&self) -> bool
        ensures { result ≡ nat_le (plain_sink_room self.now) (length (plain_sink_bytes self.now)) }
    {
        self.room <= self.bytes.len()
    }
}

impl Sink for PlainSink {
    ghost use Rattle.cept_outside.specs.PlainSink.{plain_sink_state, plain_sink_room};
    ghost use Rattle.cept_outside.specs.PlainSink.{plain_sink_bytes};

    ghost state = { plain_sink_state };

    ghost counted = { λ sink. sink.counted };

    fn put(&mut self, piece: &[u8]) -> Result<usize, Failed>
        requires { 0 < length piece.now }
        ensures puts { Puts (plain_sink_state self.old) piece.now result (plain_sink_state self.new) }
        ensures cause { HasCause (plain_sink_state self.old).faults
            (plain_sink_state self.new).faults result }

        // It fails exactly so, and appends as much as there is room for.
        ensures fails { IsErr result
            ↔ (plain_sink_room self.old ≤ length (plain_sink_bytes self.old)) }
        ensures most { IfOk result (λ n. n
            ≡ min (plain_sink_room self.old - length (plain_sink_bytes self.old))
            (length piece.now)) }
        ensures refused { (plain_sink_state self.new).faults
            ≡ (if nat_lt (length (plain_sink_bytes self.old)) (plain_sink_room self.old)
            then (plain_sink_state self.old).faults
            else min ((plain_sink_state self.old).faults + 1) (2 ^ 64 - 1)) }
    {
        let free = self.room - self.bytes.len();
        if free == 0 {
            self.refused = self.refused.saturating_add(1);
            return Err(Failed);
        }
        let count = free.min(piece.len());
        self.bytes.extend_from_slice(&piece[..count]).unwrap();
        self.unflushed = true;
        Ok(count)
    }

    fn flush(&mut self) -> Result<(), Failed>
        ensures flushes { Flushes (plain_sink_state self.old) result (plain_sink_state self.new) }
        ensures cause { HasCause (plain_sink_state self.old).faults
            (plain_sink_state self.new).faults result }
        ensures never_fails { IsOk result }
    {
        self.unflushed = false;
        self.flushes = self.flushes.saturating_add(1);
        Ok(())
    }
}
