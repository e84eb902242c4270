//! Snapshots: all of a decoder's state as bytes that bring it back, as C calls it.
ghost use Rattle.std.specs.Prelude.{◌≡◌, ◌⊎◌, ℕ, List, false, true};
ghost use Rattle.cept_live.specs.Live.{HasFed, IsPhase, LiveState};
ghost use Rattle.cept_live.specs.Snapshots.{snapshot_of};
ghost use Rattle.tamligub.specs.Decoders.{HasNoSnapshot, IsRestored, PutsTextOf};

use crate::answer::answer_of;
use crate::handle::{Decoder, live_at_start};
use std::alloc::Global;

/// Puts all of the state as bytes at the front of `out`, and their number in `put`. Answers 0; 1 where
/// no decoder is open, or its page has ended; 5 where there is no room for all of them; 6 where there is
/// no memory.
#[unsafe(no_mangle)]
pub extern "C" fn tamligub_snapshot(
    alloc: Global,
    decoder: &mut Decoder,
    out: &mut [u8],
    put: &mut u64,
) -> u32
    ensures snapshot { PutsTextOf snapshot_of HasNoSnapshot decoder.old decoder.new out.old out.new
        put.new result }
    ensures phase { result ≡ 0 → IsPhase decoder.old.block.value.phase }
{
    *put = 0;
    let Some(live) = decoder.take(alloc) else {
        return 1;
    };
    if live.has_ended() {
        decoder.put(live);
        return 1;
    }
    let taken = live.snapshot(alloc, out);
    decoder.put(live);
    answer_of(taken, put)
}

/// Opens a decoder in the state that a snapshot has; one that is open is closed first. Answers 0; 1
/// where the bytes are no snapshot; 6 where there is no memory. None is open then.
#[unsafe(no_mangle)]
pub extern "C" fn tamligub_restore(alloc: Global, decoder: &mut Decoder, bytes: &[u8]) -> u32
    ensures back { (live : LiveState) (fed : List ℕ) → HasFed live fed
        → snapshot_of live ≡ bytes.now → IsRestored live decoder.new result }
    ensures only { result ≡ 0 → (decoder.new.is_open ≡ true)
        × (snapshot_of decoder.new.block.value ≡ bytes.now) }
    ensures running { result ≡ 0 → decoder.new.block.value.parser.finished ≡ false }
    ensures failed { (result ≡ 0)
        ⊎ (((result ≡ 1) ⊎ (result ≡ 6)) × (decoder.new.is_open ≡ false)) }
{
    let _former = decoder.take(alloc);
    let Ok(mut live) = live_at_start(alloc) else {
        return 6;
    };
    let Ok(is_back) = live.restore(alloc, bytes) else {
        return 6;
    };
    if !is_back {
        return 1;
    }
    decoder.put(live);
    0
}
