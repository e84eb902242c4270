ghost use Rattle.std.specs.Prelude.{◌≡◌, ℕ, ◌+◌, ◌-◌, ◌^◌, ◌<◌, ◌≤◌, min, List, [], ◌++◌};
ghost use Rattle.std.specs.Prelude.{length, take, drop, Some, IsOk};
ghost use Rattle.cept_outside.specs.Causes.{HasCause};
ghost use Rattle.cept_outside.specs.Exact.{PutsMost};
ghost use Rattle.cept_outside.specs.SinkState.{Puts, Flushes};

use crate::fault::Failed;
use crate::sink::Sink;
use std::marker::{Brand, PhantomData};

/// Which slice a sink has, and what stood there before. A contract over any sink can't say that it is
/// still the same slice at the end; the type does. `Brand` stands for any: a caller picks it.
pub trait Lent {
    /// The name of the borrow.
    ghost name: { ℕ };

    /// What stood in the slice.
    ghost before: { List ℕ };
}

impl Lent for Brand {
    ghost name = { 0 };

    ghost before = { [] };
}

/// A caller's slice, and how many bytes at its front were put.
#[derive(Drop)]
pub struct Filled<'a> {
    pub out: &'a mut [u8],
    pub count: usize,
}

/// A caller's slice, whose front is the bytes that were put, told; what stands after them stays. It
/// takes no memory. A put into a full slice fails, and no other call.
#[derive(Drop)]
pub struct SliceSink<'a, B: Lent> {
    out: &'a mut [u8],
    count: usize,
    unflushed: bool,
    flushes: u64,
    refused: u64,
    lent: PhantomData<B>,
    ghost named: { out.ghost_name ≡ B.name },
    ghost room: { length out.now ≡ length B.before },
    ghost within: { count ≤ length out.now },
    ghost rest: { drop count out.now ≡ drop count B.before },
    ghost full: { 0 < refused → length out.now ≤ count },
    ghost counted: { refused < 2 ^ 64 },
}

/// Puts the front of a piece behind the first bytes of a slice, as far as there is room, and answers
/// how many bytes.
pub(crate) fn put_behind(piece: &[u8], first: usize, out: &mut [u8]) -> usize
    requires { first ≤ length out.old }
    ensures count { result ≡ min (length out.old - first) (length piece.now) }
    ensures put { out.new ≡ (take first out.old ++ take result piece.now)
        ++ drop (first + result) out.old }
{
    let count = piece.len().min(out.len() - first);
    out[first..first + count].copy_from_slice(&piece[..count]);
    count
}

impl<'a, B: Lent> SliceSink<'a, B> {
    ghost use Rattle.cept_outside.specs.SliceSink.{IsFilled, slice_sink_state};
    ghost use Rattle.cept_outside.specs.SinkState.{empty_sink};

    /// A slice into which nothing was put.
    pub fn new(out: &'a mut [u8]) -> SliceSink<'a, B>
        requires named { out.ghost_name ≡ B.name }
        requires before { out.now ≡ B.before }
        ensures { slice_sink_state result ≡ empty_sink (length B.before) }
    {
        SliceSink {
            out,
            count: 0,
            unflushed: false,
            flushes: 0,
            refused: 0,
            lent: PhantomData,
        }
    }

    /// The slice, with how many bytes were put. A fault was counted only where there is no room for more.
    pub fn into_filled(self) -> Filled<'a>
        ensures name { result.out.ghost_name ≡ B.name }
        ensures bytes { (slice_sink_state self.entry).bytes
            ≡ Some (take result.count result.out.now) }
        ensures filled { IsFilled B.before result.out.now result.count }
        ensures full { 0 < (slice_sink_state self.entry).faults → result.count ≡ length B.before }
    {
        let SliceSink {
            out,
            count,
            unflushed: _,
            flushes: _,
            refused: _,
            lent: _,
        } = self;
        Filled { out, count }
    }
}

impl<'a, B: Lent> Sink for SliceSink<'a, B> {
    ghost use Rattle.cept_outside.specs.SliceSink.{slice_sink_state, slice_sink_room};

    ghost state = { slice_sink_state };

    ghost counted = { λ sink. sink.counted };

    fn put(&mut self, piece: &[u8]) -> Result<usize, Failed>
        requires { 0 < length piece.now }
        ensures puts { Puts (slice_sink_state self.old) piece.now result (slice_sink_state self.new) }
        ensures cause { HasCause (slice_sink_state self.old).faults
            (slice_sink_state self.new).faults result }
        ensures most { PutsMost (slice_sink_room self.old) self.old.count
            (slice_sink_state self.old) piece.now result (slice_sink_state self.new) }
    {
        if self.count == self.out.len() {
            self.refused = self.refused.saturating_add(1);
            return Err(Failed);
        }
        let count = put_behind(piece, self.count, self.out);
        self.count += count;
        self.unflushed = true;
        Ok(count)
    }

    fn flush(&mut self) -> Result<(), Failed>
        ensures flushes { Flushes (slice_sink_state self.old) result (slice_sink_state self.new) }
        ensures cause { HasCause (slice_sink_state self.old).faults
            (slice_sink_state self.new).faults result }
        ensures never_fails { IsOk result }
    {
        self.unflushed = false;
        self.flushes = self.flushes.saturating_add(1);
        Ok(())
    }
}
