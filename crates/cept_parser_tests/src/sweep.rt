//! Every page of one and of two bytes, every tail of two bytes after each mode and each beginning, and longer
//! pages, against the tables of the grammar in `tables.rt`.

ghost use Rattle.std.specs.Prelude.{◌<◌, length};

use crate::tables::{Row, form_after, goes_on, kind_after, row};
use cept_codes::{Form, Item, Reason, Said};
use cept_parser::{Closed, ColourKind, Mode, Parser};
use std::alloc::Global;
use std::process::Abort;
use std::test::Fail;

/// The form of patterns at the start.
const FIRST_FORM: Form = Form {
    w: 12,
    h: 10,
    planes: 1,
};

/// A plain byte.
fn is_left(byte: u8) -> bool {
    matches!(byte, 0x20..=0x7F)
}

/// The longest beginning that is a row of the tables.
fn longest(mode: Mode, kind: ColourKind, form: Form, bytes: &[u8]) -> Option<(usize, Row)> {
    for shorter in 0..bytes.len() {
        let len = bytes.len() - shorter;
        if let Some(found) = row(mode, kind, form, &bytes[..len]) {
            return Some((len, found));
        }
    }
    None
}

/// Bytes of which no beginning is a row: those before the next breaker are interrupted, else all
/// are truncated.
fn cut_off(bytes: &[u8]) -> (usize, Row) {
    for (len, byte) in bytes.iter().enumerate() {
        if len > 0 && !is_left(*byte) {
            return (len, (Said::Refused(Reason::Interrupted), Mode::Text));
        }
    }
    (bytes.len(), (Said::Refused(Reason::Truncated), Mode::Text))
}

/// The items of a page that ends, by the tables.
fn expected(alloc: Global, page: &[u8]) -> Result<Vec<Item>, Fail>
    requires { length page.now < 1000 }
{
    let mut items = Vec::new(alloc);
    let mut mode = Mode::Text;
    let mut kind = ColourKind::ColourTable;
    let mut form = FIRST_FORM;
    let mut next = 0;
    for at in 0..page.len() {
        if at < next {
            continue;
        }
        if !is_left(page[at]) {
            mode = Mode::Text;
        }
        let rest = &page[at..];
        let (len, (what, after)) = match longest(mode, kind, form, rest) {
            Some(found) => found,
            None => cut_off(rest),
        };
        items.push(Item {
            at: at as u64,
            len: u8::try_from(len).unwrap_or(0),
            what,
        })?;
        mode = after;
        kind = kind_after(kind, what);
        form = form_after(form, what);
        next = at.saturating_add(len);
    }
    Ok(items)
}

/// How many bytes of a page are still pending at its end: those of a last item that is truncated,
/// or that may go on.
fn left_of(page: &[u8], items: &[Item]) -> usize {
    match items {
        [.., last] => {
            let len = last.len as usize;
            let is_left = last.what == Said::Refused(Reason::Truncated)
                || len <= page.len() && goes_on(last.what, &page[page.len() - len..]);
            if is_left { len } else { 0 }
        }
        [] => 0,
    }
}

/// How many bytes these items have, which are the first of a page.
fn end_of(items: &[Item]) -> u64 {
    match items {
        [.., last] => last.at.wrapping_add(u64::from(last.len)),
        [] => 0,
    }
}

/// The items of a page that ends.
fn items_of(alloc: Global, page: &[u8]) -> Result<Vec<Item>, Fail>
    requires { length page.now < 1000 }
{
    let mut parser = Parser::new();
    let mut items = Vec::new(alloc);
    for byte in page {
        let outcome = parser.push(*byte);
        items.extend_from_slice(outcome.as_slice())?;
    }
    let outcome = parser.finish();
    items.extend_from_slice(outcome.as_slice())?;
    Ok(items)
}

/// These places of a page are the same.
fn compare_places(rt: &impl Abort, page: &[u8], found: u64, want: u64) {
    assert_eq!(rt; found, want, "of {page:?}");
}

/// The items of a page that ends, where somebody looks at each byte how far the parser is.
fn watched(rt: &impl Abort, alloc: Global, page: &[u8], left: usize) -> Result<Vec<Item>, Fail>
    requires { length page.now < 1000 }
{
    let mut parser = Parser::new();
    let mut items = Vec::new(alloc);
    let mut closed = Closed::new();
    let mut pushed = 0;
    for byte in page {
        parser.push_into(*byte, &mut closed);
        items.extend_from_slice(closed.as_slice())?;
        pushed += 1;
        let end = end_of(items.as_slice()).wrapping_add(parser.pending() as u64);
        compare_places(rt, page, parser.place(), pushed);
        compare_places(rt, page, end, pushed);
    }
    compare_places(rt, page, parser.pending() as u64, left as u64);
    let outcome = parser.finish();
    items.extend_from_slice(outcome.as_slice())?;
    Ok(items)
}

/// The items of a page are those that are wanted.
fn compare_items(rt: &impl Abort, page: &[u8], items: &[Item], want: &[Item]) {
    assert_eq!(rt; items, want, "of {page:?}");
}

/// A page gives the items of the tables, whether or not somebody looks at each byte.
fn compare(rt: &impl Abort, alloc: Global, page: &[u8]) -> Result<(), Fail>
    requires { length page.now < 1000 }
{
    let want = expected(alloc, page)?;
    let left = left_of(page, want.as_slice());
    let items = items_of(alloc, page)?;
    compare_items(rt, page, items.as_slice(), want.as_slice());
    let items = watched(rt, alloc, page, left)?;
    compare_items(rt, page, items.as_slice(), want.as_slice());
    Ok(())
}

/// A page of these two parts gives the items of the tables.
fn check(rt: &impl Abort, alloc: Global, beginning: &[u8], tail: &[u8]) -> Result<(), Fail>
    requires beginning { length beginning.now < 900 }
    requires tail { length tail.now < 3 }
{
    let mut page = Vec::new(alloc);
    page.extend_from_slice(beginning)?;
    page.extend_from_slice(tail)?;
    compare(rt, alloc, page.as_slice())
}

/// All tails of at most two bytes after a beginning.
fn sweep(rt: &impl Abort, alloc: Global, beginning: &[u8]) -> Result<(), Fail>
    requires { length beginning.now < 900 }
{
    check(rt, alloc, beginning, &[])?;
    for first in 0..256u16 {
        check(rt, alloc, beginning, &[first as u8])?;
        for second in 0..256u16 {
            check(rt, alloc, beginning, &[first as u8, second as u8])?;
        }
    }
    Ok(())
}

/// All tails of at most two bytes after each of these beginnings.
fn sweep_each(rt: &impl Abort, alloc: Global, beginnings: &[&[u8]]) -> Result<(), Fail> {
    for beginning in beginnings {
        assert!(rt; beginning.len() < 900);
        sweep(rt, alloc, beginning)?;
    }
    Ok(())
}

#[test]
fn pages_of_two_bytes(rt: HostRuntime) -> Result<(), Fail> {
    sweep_each(&rt, rt.alloc(), &[&[]])
}

/// Text, TableRun(0), TableRun(31), TableRun(32), Skip.
const MODES: [&[u8]; 5] = [b"A", b"\x1F&00", b"\x1F&31", b"\x1F&31R\x7F", b"\x1F&!"];

#[test]
fn tails_in_each_mode(rt: HostRuntime) -> Result<(), Fail> {
    sweep_each(&rt, rt.alloc(), &MODES)
}

/// DrcsRun(21), DrcsRun(7E), DrcsRun(7F), and in patterns of 12x10: no line, half a line, one, nine and a
/// half, all.
const PATTERNS: [&[u8]; 8] = [
    b"\x1F#!",
    b"\x1F#~",
    b"\x1F#~0/",
    b"\x1F#!0",
    b"\x1F#!0e",
    b"\x1F#!0eK",
    b"\x1F#!0e(K",
    b"\x1F#!0.",
];

#[test]
fn tails_in_patterns(rt: HostRuntime) -> Result<(), Fail> {
    sweep_each(&rt, rt.alloc(), &PATTERNS)
}

/// Patterns of 12x12 in four planes, and of 6x5 in two: in the first plane, in a later one, in the last one.
const PLANES: [&[u8]; 4] = [
    b"\x1F# 6D\x1F#!0",
    b"\x1F# 6D\x1F#!0\x7F2-",
    b"\x1F# <B\x1F#!0S",
    b"\x1F# <B\x1F#!0 1$",
];

#[test]
fn tails_in_planes(rt: HostRuntime) -> Result<(), Fail> {
    sweep_each(&rt, rt.alloc(), &PLANES)
}

/// DclutRun(0), DclutRun(3), DclutRun(4), and 1F 26 x where the kind is the DCLUT.
const DCLUT: [&[u8]; 4] = [
    b"\x1F& \"\x1F&00",
    b"\x1F& \"\x1F&03",
    b"\x1F& \"\x1F&03_",
    b"\x1F& \"\x1F&0",
];

#[test]
fn tails_in_the_dclut(rt: HostRuntime) -> Result<(), Fail> {
    sweep_each(&rt, rt.alloc(), &DCLUT)
}

const ESCAPES: [&[u8]; 9] = [
    b"\x12", b"\x1B", b"\x1B ", b"\x1B  ", b"\x1B   ", b"\x1B# ", b"\x1B#!", b"\x1B+", b"\x1B[",
];

#[test]
fn tails_after_escape(rt: HostRuntime) -> Result<(), Fail> {
    sweep_each(&rt, rt.alloc(), &ESCAPES)
}

const CSI: [&[u8]; 23] = [
    b"\x9B",
    b"\x9B0",
    b"\x9B1",
    b"\x9B2",
    b"\x9B3",
    b"\x9B4",
    b"\x9B5",
    b"\x9B6",
    b"\x9B7",
    b"\x9B8",
    b"\x9B9",
    b"\x9B:",
    b"\x9B;",
    b"\x9B<",
    b"\x9B=",
    b"\x9B>",
    b"\x9B?",
    b"\x9B1;",
    b"\x9B24;",
    b"\x9B24;2",
    b"\x9B000000",
    b"\x9B0000000",
    b"\x1B[       ",
];

#[test]
fn tails_after_csi(rt: HostRuntime) -> Result<(), Fail> {
    sweep_each(&rt, rt.alloc(), &CSI)
}

const UNITS: [&[u8]; 24] = [
    b"\x1F",
    b"\x1F#",
    b"\x1F# ",
    b"\x1F# (@",
    b"\x1F&",
    b"\x1F& ",
    b"\x1F&0",
    b"\x1F&1",
    b"\x1F&2",
    b"\x1F&3",
    b"\x1F&4",
    b"\x1F&5",
    b"\x1F&6",
    b"\x1F&7",
    b"\x1F&8",
    b"\x1F&9",
    b"\x1F-",
    b"\x1F/",
    b"\x1F/@",
    b"\x1F@",
    b"\x1FA",
    b"\x1FX",
    b"\x1FY",
    b"\x1F\x7F",
];

#[test]
fn tails_after_us(rt: HostRuntime) -> Result<(), Fail> {
    sweep_each(&rt, rt.alloc(), &UNITS)
}

/// Longer pages than the sweeps have: areas of one and two digits, the downloaded set at each place, mixed
/// bytes after an escape, runs of colours, headers with all parts, what outlives a unit, what is interrupted
/// and truncated, revisions; and last the longest unit, a pattern of 12 times 12 in four planes, all of whose
/// pixels are given.
const LONGER: [&[u8]; 35] = [
    b"\x9B0;3U",
    b"\x9B5;3V",
    b"\x9B1;25U",
    b"\x9B1;24?U",
    b"\x9B3;12U",
    b"\x9B01;2U",
    b"\x1B[1;1U",
    b"\x9B10;24U",
    b"\x1B( @",
    b"\x1B) @",
    b"\x1B* @",
    b"\x1B+ @",
    b"\x1B !\"#A",
    b"\x9B0?; /<9?A",
    b"\x1F&01RR\x00R",
    b"\x1F& \"\x1F&03_@",
    b"\x1F& \"\x1F/A\x1F&04",
    b"\x1F&  \x1F&04RR",
    b"\x1F#  @7A",
    b"\x1F# (<D\x1F-",
    b"\x1F& \"4@",
    b"\x9B1\x0DB",
    b"\x1F\x1F-\x0D",
    b"A\x1F&1",
    b"\x1F-B\x0D",
    b"\x1F/EA",
    b"\x1F/FA",
    b"\x1F/GA",
    b"\x1F/NA",
    b"\x1F/\x0DE",
    b"\x1F# <B\x1F/A\x1F#!0\x7F\x7F",
    b"\x1F# :A\x1F#!0@\x7F-\x1F#!0,1",
    b"\x1F# ?B\x1F#!0/1 \x1B( @!",
    b"\x1F#!0!e\"K.",
    LONGEST,
];

const LONGEST: &[u8] = b"\x1F# 6D\x1F#!\
    0\x7F\x7F\x7F\x7F\x7F\x7F\x7F\x7F\x7F\x7F\x7F\x7F\x7F\x7F\x7F\x7F\x7F\x7F\x7F\x7F\x7F\x7F\x7F\x7F\
    1\x7F\x7F\x7F\x7F\x7F\x7F\x7F\x7F\x7F\x7F\x7F\x7F\x7F\x7F\x7F\x7F\x7F\x7F\x7F\x7F\x7F\x7F\x7F\x7F\
    2\x7F\x7F\x7F\x7F\x7F\x7F\x7F\x7F\x7F\x7F\x7F\x7F\x7F\x7F\x7F\x7F\x7F\x7F\x7F\x7F\x7F\x7F\x7F\x7F\
    3\x7F\x7F\x7F\x7F\x7F\x7F\x7F\x7F\x7F\x7F\x7F\x7F\x7F\x7F\x7F\x7F\x7F\x7F\x7F\x7F\x7F\x7F\x7F\x7F";

#[test]
fn longer_pages(rt: HostRuntime) -> Result<(), Fail> {
    for page in LONGER {
        assert!(rt; page.len() < 1000);
        compare(&rt, rt.alloc(), page)?;
    }
    Ok(())
}
