//! The parts of a snapshot. Each is read from any bytes; whether they are those of a snapshot is for
//! the caller to see.
ghost use Rattle.std.specs.Prelude.{◌≡◌, ◌<◌, ◌+◌, ◌*◌, ◌^◌, ◌∷◌, ◌++◌, ℕ, Bool, List, []};
ghost use Rattle.std.specs.Prelude.{length, map};
ghost use Rattle.cept_control.specs.Numbers.{bit};
ghost use Rattle.cept_parser.specs.declared.context.Context.{Context};
ghost use Rattle.cept_live.specs.Live.{IsPhase, LiveState};
ghost use Rattle.cept_live.specs.Parts.{HasParts, phase_by};
ghost use Rattle.cept_live.specs.inside.Parts.{kind_by, mode_by};
ghost use Rattle.cept_live.specs.Snapshots.{context_bytes, number_bytes, part, snapshot_of};

use cept_codes::{Form, Pos};
use cept_parser::{ColourKind, Context, Mode};
use cept_repaint::Marks;

/// What a snapshot says.
#[derive(Drop)]
pub struct Parts<'a> {
    pub place: u64,
    pub context: Context,
    pub pending: &'a [u8],
    pub control: &'a [u8],
    pub phase: Option<u8>,
    pub renewed: &'a [u8],
    pub page: &'a [u8],
}

/// The first bytes of a text, so many or all, and those after them.
fn cut(text: &[u8], size: usize) -> (&[u8], &[u8])
    ensures { (front rest : List ℕ) → front ++ rest ≡ text.now → length front ≡ size
        → (result.0.now ≡ front) × (result.1.now ≡ rest) }
{
    text.split_at(size.min(text.len()))
}

/// The first byte of a text, 0 where there is none, and those after it.
fn cut_byte(text: &[u8]) -> (u8, &[u8])
    ensures { (first : ℕ) (rest : List ℕ) → first ∷ rest ≡ text.now
        → (result.0 ≡ first) × (result.1.now ≡ rest) }
{
    match text.split_first() {
        Some((first, rest)) => (*first, rest),
        None => (0, text),
    }
}

/// The first part of a text, whose number of bytes stands before it, and the bytes after it.
fn cut_part(text: &[u8]) -> (&[u8], &[u8])
    ensures { (front rest : List ℕ) → part front ++ rest ≡ text.now
        → (result.0.now ≡ front) × (result.1.now ≡ rest) }
{
    let (size, rest) = cut_byte(text);
    cut(rest, usize::from(size))
}

/// The number of these digits to the base 256, the lowest first.
fn number_of_four(a: u8, b: u8, c: u8, d: u8) -> u64
    ensures value { result ≡ a + 256 * (b + 256 * (c + 256 * d)) }
    ensures small { result < 2 ^ 32 }
{
    u64::from(a) + 256 * (u64::from(b) + 256 * (u64::from(c) + 256 * u64::from(d)))
}

/// The number of eight bytes, the lowest first, and 0 of others.
fn number_of(bytes: &[u8]) -> u64
    ensures { (n : ℕ) → number_bytes n ≡ bytes.now → result ≡ n }
{
    if bytes.len() != 8 {
        return 0;
    }
    let low = number_of_four(bytes[0], bytes[1], bytes[2], bytes[3]);
    let high = number_of_four(bytes[4], bytes[5], bytes[6], bytes[7]);
    low + 0x1_0000_0000 * high
}

fn mode_of(number: u8, place: u8) -> Mode
    ensures { result ≡ mode_by number place }
{
    match number {
        1 => Mode::TableRun(place),
        2 => Mode::DclutRun(place),
        3 => Mode::DrcsRun(place),
        4 => Mode::Skip,
        _ => Mode::Text,
    }
}

fn kind_of(number: u8) -> ColourKind
    ensures { result ≡ kind_by number }
{
    match number {
        1 => ColourKind::LookUpTable,
        _ => ColourKind::ColourTable,
    }
}

/// The context of six numbers.
fn context_of_six(mode: u8, place: u8, kind: u8, w: u8, h: u8, planes: u8) -> Context
    ensures { (x : Context)
        → context_bytes x ≡ mode ∷ place ∷ kind ∷ w ∷ h ∷ planes ∷ [] → result ≡ x }
{
    Context {
        mode: mode_of(mode, place),
        kind: kind_of(kind),
        form: Form { w, h, planes },
    }
}

/// The context of six bytes, and of others that of zeros.
fn context_of(bytes: &[u8]) -> Context
    ensures { (x : Context) → context_bytes x ≡ bytes.now → result ≡ x }
{
    if bytes.len() != 6 {
        return context_of_six(0, 0, 0, 0, 0, 0);
    }
    context_of_six(bytes[0], bytes[1], bytes[2], bytes[3], bytes[4], bytes[5])
}

/// The phase of this number.
fn phase_of(number: u8) -> Option<u8>
    ensures phase { result ≡ phase_by number }
    ensures valid { IsPhase result }
{
    if number < 6 { Some(number) } else { None }
}

/// The parts of a text.
pub fn parts_of(text: &[u8]) -> Parts<'_>
    ensures snapshot { (live : LiveState) → snapshot_of live ≡ text.now
        → length live.renewed ≡ 960 → HasParts live result }
    ensures valid { IsPhase result.phase }
{
    let (_mark, rest) = cut(text, 4);
    let (place, rest) = cut(rest, 8);
    let (context, rest) = cut(rest, 6);
    let (pending, rest) = cut_part(rest);
    let (control, rest) = cut_part(rest);
    let (phase, rest) = cut_byte(rest);
    let (renewed, page) = cut(rest, 960);
    Parts {
        place: number_of(place),
        context: context_of(context),
        pending,
        control,
        phase: phase_of(phase),
        renewed,
        page,
    }
}

/// The marks of these bits, none of others than 960.
pub fn marks_of(bits: &[u8]) -> Marks
    ensures { (flags : List Bool) → map bit flags ≡ bits.now → length flags ≡ 960
        → result ≡ flags }
{
    let mut marks = Marks::new();
    if bits.len() != 960 {
        return marks;
    }
    for n in 0..960u16 {
        if bits[usize::from(n)] == 1 {
            marks.mark(Pos::from_number(n).unwrap());
        }
    }
    marks
}
