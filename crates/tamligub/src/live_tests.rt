use crate::handle::Decoder;
use crate::lines::{tamligub_kept, tamligub_line, tamligub_undone};
use crate::live::{
    tamligub_close, tamligub_feed, tamligub_finish, tamligub_flash_start, tamligub_flash_turn,
    tamligub_look, tamligub_open, tamligub_state, tamligub_write,
};
use crate::snapshot::{tamligub_restore, tamligub_snapshot};
use cept_live::{Colour, DecoderState, Notice, PenRecord, Pixels, Sign};
use std::alloc::Global;
use std::process::Abort;
use std::test::Fail;

const NO_COLOUR: Colour = Colour {
    red: 0,
    green: 0,
    blue: 0,
    behind: 0,
};

/// What stands in a list before anything is put into it.
const NO_NOTICE: Notice = Notice {
    at: 99,
    kind: 0,
    length: 0,
    reason: 0,
    row: 0,
    column: 0,
    sign: Sign {
        kind: 0,
        set: 0,
        code: 0,
        accent: 0,
    },
    dy: 0,
    dx: 0,
    w: 0,
    h: 0,
    fore: NO_COLOUR,
    back: NO_COLOUR,
    flash: 0,
    conceal: 0,
    lined: 0,
    boxed: 0,
    pattern: Pixels {
        bits: [0; 9],
        w: 0,
        h: 0,
        planes: 0,
        inks: 0,
        colours: [NO_COLOUR; 16],
    },
};

const NO_STATE: DecoderState = DecoderState {
    fed: 99,
    pending: 0,
    ended: 0,
    row: 0,
    column: 0,
    rows: 0,
    wrap: 0,
    first: 0,
    last: 0,
    implicit: 0,
    revision: 0,
    c1: 0,
    g: [0; 4],
    left: 0,
    right: 0,
    single: 0,
    accent: 0,
    table: 0,
    protect: 0,
    pen: PenRecord {
        fore: 0,
        back: 0,
        flash: 0,
        conceal: 0,
        lined: 0,
        boxed: 0,
        size: 0,
        invert: 0,
    },
};

/// Feeds bytes one by one, and answers how many were taken and how many notices were put.
fn feed_each(
    alloc: Global,
    decoder: &mut Decoder,
    bytes: &[u8],
    list: &mut [Notice],
) -> (u64, u64) {
    let mut taken = 0u64;
    let mut count = 0u64;
    for byte in bytes {
        let mut notices = 99;
        let more = tamligub_feed(alloc, decoder, [*byte].as_slice(), list, &mut notices);
        taken = taken.saturating_add(more);
        count = count.saturating_add(notices);
    }
    (taken, count)
}

/// Place, sign and colours of a notice.
fn numbers(notice: &Notice) -> [u8; 9] {
    [
        notice.kind,
        notice.row,
        notice.column,
        notice.sign.set,
        notice.sign.code,
        notice.h,
        notice.w,
        notice.fore.red,
        notice.back.red,
    ]
}

/// The page of the README: an A, a position, and an A at the same place; one place changes.
#[test]
fn tells_what_bytes_change(rt: HostRuntime) -> Result<(), Fail> {
    let alloc = rt.alloc();
    let mut list = Vec::from_elem(alloc, NO_NOTICE, 1920)?;
    let mut decoder = Decoder::closed();
    let mut notices = 99;
    let opened = tamligub_open(alloc, &mut decoder);
    let fed = feed_each(alloc, &mut decoder, b"A", list.as_mut_slice());
    let told = numbers(&list.first().copied().unwrap_or(NO_NOTICE));
    let more = feed_each(alloc, &mut decoder, b"\x1FAAA", list.as_mut_slice());
    let ended = tamligub_finish(alloc, &mut decoder, list.as_mut_slice(), &mut notices);
    tamligub_close(alloc, &mut decoder);
    decoder.into_nothing();
    assert_eq!(rt; [opened, ended], [0, 0]);
    assert_eq!(rt; [fed.0, fed.1, more.0, more.1, notices], [1, 1, 4, 0, 0]);
    assert_eq!(rt; told, [1, 1, 1, 0, 0x41, 1, 1, 15, 0]);
    Ok(())
}

/// Plain flashing, an A, and two bytes that begin a position: where it stands, and how a place looks.
#[test]
fn says_where_it_stands(rt: HostRuntime) -> Result<(), Fail> {
    let alloc = rt.alloc();
    let mut list = Vec::from_elem(alloc, NO_NOTICE, 1920)?;
    let mut decoder = Decoder::closed();
    let mut state = NO_STATE;
    let mut look = NO_NOTICE;
    let opened = tamligub_open(alloc, &mut decoder);
    let _fed = feed_each(alloc, &mut decoder, b"\x88A\x1FA", list.as_mut_slice());
    let stated = tamligub_state(alloc, &mut decoder, &mut state);
    let looked = tamligub_look(alloc, &mut decoder, 1, 1, &mut look);
    let beside = tamligub_look(alloc, &mut decoder, 25, 1, &mut look);
    tamligub_close(alloc, &mut decoder);
    decoder.into_nothing();
    assert_eq!(rt; [opened, stated, looked, beside], [0, 0, 0, 1]);
    assert_eq!(rt; [state.fed, look.at], [4, 4]);
    assert_eq!(rt;
        [state.pending, state.row, state.column, look.flash],
        [2, 1, 2, 1]
    );
    Ok(())
}

/// The first phase of a flashing A, the next, at which it is seen too, and the page as bytes, for which
/// there is room or not.
#[test]
fn flashes_and_writes(rt: HostRuntime) -> Result<(), Fail> {
    let alloc = rt.alloc();
    let mut list = Vec::from_elem(alloc, NO_NOTICE, 1920)?;
    let mut decoder = Decoder::closed();
    let mut out = [b'-'; 40];
    let mut few = [b'-'; 3];
    let mut first = 99;
    let mut next = 99;
    let mut put = 99;
    let opened = tamligub_open(alloc, &mut decoder);
    let _fed = feed_each(alloc, &mut decoder, b"\x88A", list.as_mut_slice());
    let begun = tamligub_flash_start(alloc, &mut decoder, list.as_mut_slice(), &mut first);
    let turned = tamligub_flash_turn(alloc, &mut decoder, list.as_mut_slice(), &mut next);
    let written = tamligub_write(alloc, &mut decoder, &mut out, &mut put);
    let longer = tamligub_write(alloc, &mut decoder, &mut few, &mut put);
    tamligub_close(alloc, &mut decoder);
    decoder.into_nothing();
    assert_eq!(rt; [opened, begun, turned, written, longer], [0, 0, 0, 0, 5]);
    assert_eq!(rt; [first, next, put], [1, 0, 0]);
    assert_eq!(rt; out.as_slice().starts_with(b"\x1F/B\x1F-A"), true);
    Ok(())
}

/// A position of which a byte is missing, and its last byte after a snapshot: the sign after it is told
/// at the place that it names. Bytes that are no snapshot are refused.
#[test]
fn is_brought_back(rt: HostRuntime) -> Result<(), Fail> {
    let alloc = rt.alloc();
    let mut list = Vec::from_elem(alloc, NO_NOTICE, 1920)?;
    let mut kept = Vec::from_elem(alloc, b'-', 2000)?;
    let mut decoder = Decoder::closed();
    let mut other = Decoder::closed();
    let mut put = 99;
    let mut state = NO_STATE;
    let opened = tamligub_open(alloc, &mut decoder);
    let _fed = feed_each(alloc, &mut decoder, b"AB\x1FC", list.as_mut_slice());
    let taken = tamligub_snapshot(alloc, &mut decoder, kept.as_mut_slice(), &mut put);
    let bytes = kept.as_slice().get(..put as usize).unwrap_or(&[]);
    let restored = tamligub_restore(alloc, &mut other, bytes);
    let fed = feed_each(alloc, &mut other, b"DX", list.as_mut_slice());
    let told = numbers(&list.first().copied().unwrap_or(NO_NOTICE));
    let stated = tamligub_state(alloc, &mut other, &mut state);
    let refused = tamligub_restore(alloc, &mut other, b"AB");
    let few = tamligub_snapshot(alloc, &mut decoder, &mut [b'-'; 3], &mut put);
    tamligub_close(alloc, &mut decoder);
    tamligub_close(alloc, &mut other);
    decoder.into_nothing();
    other.into_nothing();
    assert_eq!(rt;
        [opened, taken, restored, stated, refused, few],
        [0, 0, 0, 0, 1, 5]
    );
    assert_eq!(rt; [fed.0, fed.1, state.fed, put], [2, 1, 6, 0]);
    assert_eq!(rt; told, [1, 3, 4, 0, 0x58, 1, 1, 15, 0]);
    Ok(())
}

/// A page of one sign, and lines of a script after its end: two that begin with 2/3, a text, which is
/// undone, a line outside the grammar, and a second undo, which finds nothing.
#[test]
fn is_edited(rt: HostRuntime) -> Result<(), Fail> {
    let alloc = rt.alloc();
    let mut list = Vec::from_elem(alloc, NO_NOTICE, 1920)?;
    let mut decoder = Decoder::closed();
    let (mut count, mut reason) = (99, 99);
    let opened = tamligub_open(alloc, &mut decoder);
    let _fed = feed_each(alloc, &mut decoder, b"A", list.as_mut_slice());
    let mut answers = [99u32; 6];
    let mut counts = [99u64; 6];
    let lines = [
        b"# up".as_slice(),
        b"text BC",
        b"no",
        b"# no",
        b"undo",
        b"undo",
    ];
    let early = tamligub_line(
        alloc,
        &mut decoder,
        b"up",
        list.as_mut_slice(),
        &mut count,
        &mut reason,
    );
    let ended = tamligub_finish(alloc, &mut decoder, list.as_mut_slice(), &mut count);
    for k in 0..6usize {
        answers[k] = tamligub_line(
            alloc,
            &mut decoder,
            lines[k],
            list.as_mut_slice(),
            &mut counts[k],
            &mut reason,
        );
    }
    let told = numbers(&list.first().copied().unwrap_or(NO_NOTICE));
    let edits = [
        tamligub_kept(alloc, &mut decoder),
        tamligub_undone(alloc, &mut decoder),
    ];
    tamligub_close(alloc, &mut decoder);
    decoder.into_nothing();
    assert_eq!(rt; [opened, early, ended], [0, 1, 0]);
    assert_eq!(rt; answers, [2, 0, 3, 2, 0, 2]);
    assert_eq!(rt; counts, [0, 2, 0, 0, 2, 0]);
    assert_eq!(rt; edits, [0, 1]);
    assert_eq!(rt; told[0], 1);
    Ok(())
}

/// Calls on a decoder that isn't open do nothing, and so do those of a page that has ended.
#[test]
fn does_nothing_where_nothing_can_be_done(rt: HostRuntime) -> Result<(), Fail> {
    let alloc = rt.alloc();
    let mut list = Vec::from_elem(alloc, NO_NOTICE, 1920)?;
    let mut decoder = Decoder::closed();
    let mut count = 99;
    let fed = feed_each(alloc, &mut decoder, b"A", list.as_mut_slice());
    let closed = tamligub_finish(alloc, &mut decoder, list.as_mut_slice(), &mut count);
    tamligub_close(alloc, &mut decoder);
    let opened = tamligub_open(alloc, &mut decoder);
    let anew = tamligub_open(alloc, &mut decoder);
    let ended = tamligub_finish(alloc, &mut decoder, list.as_mut_slice(), &mut count);
    let again = tamligub_finish(alloc, &mut decoder, list.as_mut_slice(), &mut count);
    let more = feed_each(alloc, &mut decoder, b"A", list.as_mut_slice());
    tamligub_close(alloc, &mut decoder);
    tamligub_close(alloc, &mut decoder);
    decoder.into_nothing();
    assert_eq!(rt; [closed, opened, anew, ended, again], [1, 0, 0, 0, 1]);
    assert_eq!(rt; [fed.0, fed.1, more.0, more.1, count], [0, 0, 0, 0, 0]);
    Ok(())
}
