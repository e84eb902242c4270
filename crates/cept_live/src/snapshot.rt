//! All of the state of a decoder that runs, put into a sink as bytes that bring it back.
ghost use Rattle.std.specs.Prelude.{◌≡◌, ◌≤◌, ◌<◌, ◌+◌, ◌∷◌, ◌++◌, [], length, map};
ghost use Rattle.arrayvec.specs.ArrayVec.{array_vec_len};
ghost use Rattle.cept_control.specs.Numbers.{bit, number_or};
ghost use Rattle.cept_outside.specs.SinkState.{PutsText};
ghost use Rattle.cept_live.specs.Snapshots.{context_bytes, kind_number, mode_number, mode_place};
ghost use Rattle.cept_live.specs.Snapshots.{number_bytes, part, snapshot_head, snapshot_mark};
ghost use Rattle.cept_live.specs.Snapshots.{snapshot_of};

use arrayvec::ArrayVec;
use cept_codes::Pos;
use cept_control::numbers::{bit, number_or};
use cept_outside::{Sink, WriteFault, put_all};
use cept_parser::{ColourKind, Context, Mode, Parser};
use cept_repaint::{Marks, Screen};
use cept_writer::write_page;

/// What begins a snapshot.
const MARK: [u8; 4] = [0x54, 0x53, 0x4E, 0x31];

/// Room for all of a snapshot but the page: at most 99 bytes are pending, and control has at most 61.
const HEAD_ROOM: usize = 1141;

/// The bytes of a snapshot before the page while they are made.
type Head = ArrayVec<u8, HEAD_ROOM>;

/// A number as eight bytes, the lowest first.
fn number_bytes(number: u64) -> [u8; 8]
    ensures { result ≡ number_bytes number }
{
    let b = number / 256;
    let c = b / 256;
    let d = c / 256;
    let e = d / 256;
    let f = e / 256;
    let g = f / 256;
    let h = g / 256;
    [
        (number % 256) as u8,
        (b % 256) as u8,
        (c % 256) as u8,
        (d % 256) as u8,
        (e % 256) as u8,
        (f % 256) as u8,
        (g % 256) as u8,
        h as u8,
    ]
}

fn mode_number(mode: Mode) -> u8
    ensures { result ≡ mode_number mode }
{
    match mode {
        Mode::Text => 0,
        Mode::TableRun(_) => 1,
        Mode::DclutRun(_) => 2,
        Mode::DrcsRun(_) => 3,
        Mode::Skip => 4,
    }
}

fn mode_place(mode: Mode) -> u8
    ensures { result ≡ mode_place mode }
{
    match mode {
        Mode::Text => 0,
        Mode::TableRun(i) => i,
        Mode::DclutRun(i) => i,
        Mode::DrcsRun(code) => code,
        Mode::Skip => 0,
    }
}

fn kind_number(kind: ColourKind) -> u8
    ensures { result ≡ kind_number kind }
{
    match kind {
        ColourKind::ColourTable => 0,
        ColourKind::LookUpTable => 1,
    }
}

fn context_bytes(context: &Context) -> [u8; 6]
    ensures { result ≡ context_bytes context.now }
{
    [
        mode_number(context.mode),
        mode_place(context.mode),
        kind_number(context.kind),
        context.form.w,
        context.form.h,
        context.form.planes,
    ]
}

/// A bit for each place, 1 where it is marked.
fn bits_of(marks: &Marks) -> [u8; 960]
    ensures { result ≡ map bit marks.now }
{
    // That there are 960 places is known to the prover by their count.
    let _count = marks.len();
    let mut bits = [0u8; 960];
    for n in 0..960u16 {
        let place = Pos::from_number(n).unwrap();
        bits[usize::from(n)] = bit(marks.has(place));
    }
    bits
}

/// Adds bytes.
fn add_bytes(head: &mut Head, bytes: &[u8])
    requires { array_vec_len head.old + length bytes.now ≤ 1141 }
    ensures head { head.new.items ≡ head.old.items ++ bytes.now }
    ensures len { array_vec_len head.new ≡ array_vec_len head.old + length bytes.now }
{
    head.try_extend_from_slice(bytes).unwrap();
}

/// Adds bytes after their number.
fn add_part(head: &mut Head, bytes: &[u8])
    requires room { array_vec_len head.old + length bytes.now + 1 ≤ 1141 }
    requires few { length bytes.now < 256 }
    ensures head { head.new.items ≡ head.old.items ++ part bytes.now }
    ensures len { array_vec_len head.new ≡ array_vec_len head.old + length bytes.now + 1 }
{
    head.push(bytes.len() as u8);
    add_bytes(head, bytes);
}

/// Adds the mark, where the parser stands, and the bytes of control.
fn add_state(head: &mut Head, place: u64, context: &Context, pending: &[u8], control: &[u8])
    requires start { head.old.items ≡ [] }
    requires pending { length pending.now ≤ 99 }
    requires control { length control.now ≤ 61 }
    ensures head { head.new.items ≡ snapshot_mark ++ number_bytes place ++ context_bytes context.now
        ++ part pending.now ++ part control.now }
    ensures len { array_vec_len head.new ≤ 180 }
{
    add_bytes(head, &MARK);
    add_bytes(head, &number_bytes(place));
    add_bytes(head, &context_bytes(context));
    add_part(head, pending);
    add_part(head, control);
}

/// Adds the phase, and then the bits of the places renewed.
fn add_phase(head: &mut Head, phase: Option<u8>, renewed: &Marks)
    requires { array_vec_len head.old ≤ 180 }
    ensures { head.new.items ≡ head.old.items ++ number_or 255 phase ∷ map bit renewed.now }
{
    head.push(number_or(255, phase));
    add_bytes(head, &bits_of(renewed));
}

/// All of a snapshot but the page.
fn head_of(parser: &Parser, screen: &Screen, phase: Option<u8>, renewed: &Marks) -> Head
    ensures { result.items ≡ snapshot_head (record {
      parser = parser.now;
      screen = screen.now;
      phase = phase;
      renewed = renewed.now;
      past = [];
      future = [];
    }) }
{
    let context = parser.context();
    let pending = parser.pending_bytes();
    let control = screen.control().bytes();
    let mut head = Head::new();
    add_state(
        &mut head,
        parser.place(),
        &context,
        pending,
        control.as_slice(),
    );
    add_phase(&mut head, phase, renewed);
    head
}

/// Puts a snapshot of the decoder that has this parser, this screen, this phase of flashing and these
/// places renewed since it began. Takes no memory.
pub fn put_snapshot<T: Sink>(
    sink: &mut T,
    parser: &Parser,
    screen: &Screen,
    phase: Option<u8>,
    renewed: &Marks,
) -> Result<(), WriteFault>
    ensures { PutsText (T.state sink.old) (snapshot_of (record {
      parser = parser.now;
      screen = screen.now;
      phase = phase;
      renewed = renewed.now;
      past = [];
      future = [];
    })) result (T.state sink.new) }
{
    let head = head_of(parser, screen, phase, renewed);
    put_all(sink, head.as_slice())?;
    write_page(screen, sink)
}
