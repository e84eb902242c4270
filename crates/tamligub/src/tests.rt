use crate::tamligub_run;
use std::alloc::Global;
use std::process::Abort;
use std::test::Fail;

/// A call with room for so many bytes, at most 64: the status, how many bytes were put, and the room after it.
#[derive(Drop)]
struct Answer {
    status: u32,
    put: u64,
    out: [u8; 64],
}

fn call_with(
    alloc: Global,
    word: &[u8],
    given: u32,
    number: u32,
    page: &[u8],
    script: &[u8],
    room: usize,
) -> Answer {
    let mut out = [b'-'; 64];
    let mut put = 99;
    let room = room.min(64);
    let status = tamligub_run(
        alloc,
        word,
        given,
        number,
        page,
        script,
        &mut out[..room],
        &mut put,
    );
    Answer { status, put, out }
}

#[test]
fn puts_the_report_or_its_front(rt: HostRuntime) -> Result<(), Fail> {
    let page = b"A\x1FAAA";
    let line = b"0 1 1 P41 11.00 FFF 000 S---\n";
    for (room, status) in [(64, 0), (29, 0), (28, 5), (0, 5)] {
        let found = call_with(rt.alloc(), b"changes", 1, 0, page, b"", room);
        let put = room.min(29);
        assert_eq!(rt; found.status, status, "with room {room}");
        assert_eq!(rt; found.put, put as u64, "with room {room}");
        assert_eq!(rt; &found.out[..put], &line[..put], "with room {room}");
        assert_eq!(rt; found.out[put.min(63)], b'-', "with room {room}");
    }
    Ok(())
}

#[test]
fn answers_for_what_is_given(rt: HostRuntime) -> Result<(), Fail> {
    let cases = [
        (b"check".as_slice(), 1, b"A\x1C".as_slice(), 1),
        (b"list", 1, b"A\x1C", 1),
        (b"check", 0, b"A", 2),
        (b"check", 3, b"A", 4),
        (b"check", 5, b"A", 2),
        (b"trace", 1, b"A", 2),
        (b"trace", 2, b"A", 3),
        (b"gen", 1, b"A", 2),
        (b"gen", 3, b"A", 5),
        (b"none", 1, b"A", 2),
        (b"\xFF", 1, b"A", 2),
        (b"", 0, b"A", 2),
        (b"eight", 1, b"\x80", 8),
    ];
    for (word, given, page, status) in cases {
        let found = call_with(rt.alloc(), word, given, 7, page, b"nonsense\n", 64);
        assert_eq!(rt; found.status, status, "{:?} with {given}", word);
    }
    Ok(())
}

#[test]
fn hands_on_a_number_after_the_page(rt: HostRuntime) -> Result<(), Fail> {
    let found = call_with(rt.alloc(), b"flash", 4, 3, b"\x88A", b"", 64);
    let lines = b"0 1 1 P41 11.00 FFF 000 S---\n3 1 1 - 11.00 FFF 000 S---\n";
    assert_eq!(rt; found.status, 0);
    assert_eq!(rt; &found.out[..56], lines.as_slice());
    assert_eq!(rt; found.put, 56);
    Ok(())
}

/// So often this line, and another.
fn repeated(alloc: Global, line: &[u8], times: u32, last: &[u8]) -> Result<Vec<u8>, Fail> {
    let mut lines = Vec::new(alloc);
    for _time in 0..times {
        lines.extend_from_slice(line)?;
    }
    lines.extend_from_slice(last)?;
    Ok(lines)
}

/// A page of 100,000 bytes and a script of 48,001 lines, with room for a million bytes.
#[test]
fn takes_large_pages_scripts_and_rooms(rt: HostRuntime) -> Result<(), Fail> {
    let alloc = rt.alloc();
    let page = Vec::from_elem(alloc, 0u8, 100_000)?;
    let script = repeated(alloc, b"up\n", 48_000, b"text A\n")?;
    let mut out = Vec::from_elem(alloc, b'-', 1_000_000)?;
    let mut put = 99;
    let status = tamligub_run(
        alloc,
        b"edit",
        2,
        0,
        page.as_slice(),
        script.as_slice(),
        out.as_mut_slice(),
        &mut put,
    );
    let want = b"\x1F/B\x1F-Ap\x1FAA\x1B\"AA";
    assert_eq!(rt; status, 0);
    assert_eq!(rt; put, want.len() as u64);
    assert_eq!(rt; out.as_slice().starts_with(want), true);
    Ok(())
}
