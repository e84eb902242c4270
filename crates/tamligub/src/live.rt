//! A decoder that is fed bytes as they come, as C calls it. Each call may be made at any time, on a decoder
//! that isn't open, whose page has ended or that was closed before, too: it takes the decoder out of what C
//! keeps, and puts it back.
ghost use Rattle.std.specs.Prelude.{◌≡◌, ◌≤◌, ◌⊎◌, [], true, false, length, take};
ghost use Rattle.cept_live.specs.Live.{Feeds, HasFed, Stops, live_start};
ghost use Rattle.cept_live.specs.States.{state_record};
ghost use Rattle.tamligub.specs.Decoders.{CannotEnd, CannotFlash, DoneOrRefused, FlashStarts};
ghost use Rattle.tamligub.specs.Decoders.{FlashTurns, HasNoLook, IsClosed, IsRefused, PageEnds};
ghost use Rattle.tamligub.specs.Decoders.{PutsTextOf, TakesNone, ToldOrRefused, notice_at, page_of};

use crate::answer::answer_of;
use crate::handle::{Decoder, live_at_start};
use cept_codes::Pos;
use cept_live::{DecoderState, Fed, Notice};
use std::alloc::Global;

/// Opens a decoder before the first byte; one that is open is closed first. Answers 0, or 6 where
/// there is no memory: none is open then.
#[unsafe(no_mangle)]
pub extern "C" fn tamligub_open(alloc: Global, decoder: &mut Decoder) -> u32
    ensures opened { result ≡ 0
        → (decoder.new.is_open ≡ true) × HasFed decoder.new.block.value [] }
    ensures start { result ≡ 0 → decoder.new.block.value ≡ live_start }
    ensures failed { (result ≡ 0) ⊎ ((result ≡ 6) × (decoder.new.is_open ≡ false)) }
{
    let _former = decoder.take(alloc);
    let Ok(boxed) = live_at_start(alloc) else {
        return 6;
    };
    decoder.put(boxed);
    0
}

/// Feeds bytes, as long as `list` has room for what one more may change. Puts the notices at the
/// front of `list` and their number in `notices`, and answers how many bytes were taken.
#[unsafe(no_mangle)]
pub extern "C" fn tamligub_feed(
    alloc: Global,
    decoder: &mut Decoder,
    bytes: &[u8],
    list: &mut [Notice],
    notices: &mut u64,
) -> u64
    ensures feeds { decoder.old.is_open ≡ true → Feeds decoder.old.block.value
        (take result bytes.now) list.old 0 decoder.new.block.value notices.new list.new }
    ensures most { result ≤ length bytes.now }
    ensures within { notices.new ≤ length list.old }
    ensures stops { decoder.old.is_open ≡ true → Stops bytes.now list.new result notices.new
        decoder.new.block.value }
    ensures refused { TakesNone decoder.old list.old → (result ≡ 0)
        × IsRefused decoder.old decoder.new list.old list.new notices.new }
    ensures is_open { decoder.new.is_open ≡ decoder.old.is_open }
{
    *notices = 0;
    let Some(mut live) = decoder.take(alloc) else {
        return 0;
    };
    let Fed {
        taken,
        notices: count,
    } = live.feed(bytes, list);
    decoder.put(live);
    *notices = count as u64;
    taken as u64
}

/// Ends the page. Puts what its last item says at the front of `list`, and the number of notices in
/// `notices`. Answers 0, or 1 where no decoder is open, the page had ended, or `list` has room for
/// fewer notices than one byte may need.
#[unsafe(no_mangle)]
pub extern "C" fn tamligub_finish(
    alloc: Global,
    decoder: &mut Decoder,
    list: &mut [Notice],
    notices: &mut u64,
) -> u32
    ensures { DoneOrRefused PageEnds CannotEnd decoder.old decoder.new list.old list.new
        notices.new result }
{
    *notices = 0;
    let Some(mut live) = decoder.take(alloc) else {
        return 1;
    };
    let ended = live.finish(list);
    decoder.put(live);
    let Some(count) = ended else {
        return 1;
    };
    *notices = count as u64;
    0
}

/// Puts the look at a place in `notice`. Answers 0, or 1 where no decoder is open or there is no such
/// place.
#[unsafe(no_mangle)]
pub extern "C" fn tamligub_look(
    alloc: Global,
    decoder: &mut Decoder,
    row: u8,
    column: u8,
    notice: &mut Notice,
) -> u32
    ensures { ToldOrRefused (notice_at (record { row = row; column = column }))
        (HasNoLook (record { row = row; column = column })) decoder.old decoder.new notice.old
        notice.new result }
{
    let Some(at) = Pos::new(row, column) else {
        return 1;
    };
    let Some(live) = decoder.take(alloc) else {
        return 1;
    };
    *notice = live.notice_at(at);
    decoder.put(live);
    0
}

/// Puts in `state` where the decoder stands. Answers 0, or 1 where none is open.
#[unsafe(no_mangle)]
pub extern "C" fn tamligub_state(
    alloc: Global,
    decoder: &mut Decoder,
    state: &mut DecoderState,
) -> u32
    ensures { ToldOrRefused state_record IsClosed decoder.old decoder.new state.old state.new
        result }
{
    let Some(live) = decoder.take(alloc) else {
        return 1;
    };
    *state = live.state();
    decoder.put(live);
    0
}

/// Puts the page as bytes at the front of `out`, and its length in `put`. Answers 0; 1 where no
/// decoder is open; 5 where there is no room for all of it; 6 where there is no memory.
#[unsafe(no_mangle)]
pub extern "C" fn tamligub_write(
    alloc: Global,
    decoder: &mut Decoder,
    out: &mut [u8],
    put: &mut u64,
) -> u32
    ensures { PutsTextOf page_of IsClosed decoder.old decoder.new out.old out.new put.new result }
{
    *put = 0;
    let Some(live) = decoder.take(alloc) else {
        return 1;
    };
    let written = live.write(alloc, out);
    decoder.put(live);
    answer_of(written, put)
}

/// Begins the first phase of flashing over a blank display. Puts the places that are not blank at it
/// at the front of `list`, and their number in `notices`. Answers 0, or 1 where no decoder is open or
/// `list` has room for fewer notices than a phase may need.
#[unsafe(no_mangle)]
pub extern "C" fn tamligub_flash_start(
    alloc: Global,
    decoder: &mut Decoder,
    list: &mut [Notice],
    notices: &mut u64,
) -> u32
    ensures { DoneOrRefused FlashStarts CannotFlash decoder.old decoder.new list.old list.new
        notices.new result }
{
    *notices = 0;
    let Some(mut live) = decoder.take(alloc) else {
        return 1;
    };
    let begun = live.flash_start(list);
    decoder.put(live);
    let Some(count) = begun else {
        return 1;
    };
    *notices = count as u64;
    0
}

/// Begins the next phase of flashing over what is shown. Puts the places that are shown otherwise at
/// it at the front of `list`, and their number in `notices`. Answers as `tamligub_flash_start`.
#[unsafe(no_mangle)]
pub extern "C" fn tamligub_flash_turn(
    alloc: Global,
    decoder: &mut Decoder,
    list: &mut [Notice],
    notices: &mut u64,
) -> u32
    ensures { DoneOrRefused FlashTurns CannotFlash decoder.old decoder.new list.old list.new
        notices.new result }
{
    *notices = 0;
    let Some(mut live) = decoder.take(alloc) else {
        return 1;
    };
    let begun = live.flash_turn(list);
    decoder.put(live);
    let Some(count) = begun else {
        return 1;
    };
    *notices = count as u64;
    0
}

/// Closes a decoder and gives its memory back; where none is open nothing is done.
#[unsafe(no_mangle)]
pub extern "C" fn tamligub_close(alloc: Global, decoder: &mut Decoder)
    ensures { decoder.new.is_open ≡ false }
{
    let _live = decoder.take(alloc);
}
