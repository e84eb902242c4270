//! Takes a page from the shelf and puts it in another form, piece by piece: its bytes are never all
//! in memory.

ghost use Rattle.std.specs.Prelude.{◌≡◌, ◌≤◌, List, ℕ, [], ◌++◌, true, false, not, length};
ghost use Rattle.cept_outside.specs.SinkState.{SinkState};
ghost use Rattle.cept_repaint.specs.GlassState.{GlassState};
ghost use Rattle.cept_seven.specs.Seven.{ends_right};
ghost use Rattle.cept_seven.specs.Eight.{Leads};
ghost use Rattle.cept_run.specs.Course.{course_of};
ghost use Rattle.cept_run.specs.Outside.{outside_of};
ghost use Rattle.cept_run.specs.Page.{KeepsShelf};
ghost use Rattle.cept_run.specs.Run.{RunsCourse, status_at_end};
ghost use Rattle.cept_run.specs.Words.{Bytes};
ghost use Rattle.cept_run.specs.inside.Converting.{IsAfter, Converts, HasConverted};
ghost use Rattle.cept_run.specs.inside.Converting.{PieceConverted, EndConverted, PageConverted};
ghost use Rattle.cept_run.specs.Converted.{converted, converted_front, can_end_there};
ghost use Rattle.cept_run.specs.declared.words.BytesAction.TheVariants.{Seven as InSeven, Eight as InEight};

use crate::page::{LIMIT, PIECE, Stop};
use crate::words::BytesAction;
use arrayvec::ArrayVec;
use cept_outside::{Shelf, Sink, put_all};
use cept_seven::{FromSeven, Heard, ToSeven};

/// What is put of a piece: at most three bytes for each of its 4,096.
type Text = ArrayVec<u8, 12288>;

/// The way of a page, to seven bits or back.
#[derive(Drop)]
pub enum Path {
    /// To seven bits.
    Seven(ToSeven),
    /// Back to eight.
    Eight(FromSeven),
}

/// Converts a piece to seven bits.
#[inline(never)]
fn to_seven(form: &mut ToSeven, piece: &[u8], text: &mut Text)
    requires { length piece.now ≤ 4096 }
    ensures { (b : List ℕ) → form.old ≡ ends_right b
        → Converts InSeven b piece.now text.new.items true (Path.Seven form.new) }
{
    text.clear();
    for byte in piece {
        form.push_into(*byte, text);
    }
}

/// Converts a piece back to eight bits. Answers whether all of it could be read.
#[inline(never)]
fn from_seven(form: &mut FromSeven, piece: &[u8], text: &mut Text) -> bool
    requires { length piece.now ≤ 4096 }
    ensures { (b : List ℕ) → Leads b form.old
        → Converts InEight b piece.now text.new.items result (Path.Eight form.new) }
{
    text.clear();
    for byte in piece {
        match form.push(*byte) {
            Heard::Byte(given) => text.push(given),
            Heard::Silent => {}
            Heard::Refused => return false,
        }
    }
    true
}

impl Path {
    /// Before the first byte.
    fn new(action: BytesAction) -> Path
        ensures { IsAfter action [] result }
    {
        match action {
            BytesAction::Seven => Path::Seven(ToSeven::new()),
            BytesAction::Eight => Path::Eight(FromSeven::new()),
        }
    }

    /// Converts a piece. Answers whether all of it could be read.
    fn convert(&mut self, piece: &[u8], text: &mut Text) -> bool
        requires { length piece.now ≤ 4096 }
        ensures { (action : BytesAction) (b : List ℕ) → IsAfter action b self.old
            → Converts action b piece.now text.new.items result self.new }
    {
        match self {
            Path::Seven(form) => {
                to_seven(form, piece, text);
                true
            }
            Path::Eight(form) => from_seven(form, piece, text),
        }
    }
}

impl Path {
    /// Whether the page can't end here.
    fn is_open(&self) -> bool
        ensures { (action : BytesAction) (b : List ℕ) → IsAfter action b self.now
            → result ≡ not (can_end_there action b) }
    {
        match self {
            Path::Seven(_) => false,
            Path::Eight(form) => form.open_quote(),
        }
    }

    /// Ends the page. Answers what is put at its end.
    fn finish(&mut self) -> ArrayVec<u8, 1>
        ensures { (action : BytesAction) (b : List ℕ) → IsAfter action b self.old
            → converted action b ≡ converted_front action b ++ result.items }
    {
        match self {
            Path::Seven(form) => form.finish(),
            Path::Eight(_) => ArrayVec::new(),
        }
    }
}

/// Converts a piece and puts it, up to a byte that can't be read.
fn put_piece<T: Sink>(
    path: &mut Path,
    piece: &[u8],
    text: &mut Text,
    sink: &mut T,
) -> Result<(), Stop>
    requires { length piece.now ≤ 4096 }
    ensures { (action : BytesAction) (b : List ℕ) (start : SinkState)
        → HasConverted action b path.old start (T.state sink.old)
        → PieceConverted action (b ++ piece.now) start result path.new (T.state sink.new) }
{
    let read = path.convert(piece, text);
    let Ok(()) = put_all(sink, text.as_slice()) else {
        return Err(Stop::WriteFault);
    };
    if read { Ok(()) } else { Err(Stop::NotSeven) }
}

/// Puts what is left to put at the end of the page, and flushes, where it can end there.
fn put_end<T: Sink>(path: &mut Path, sink: &mut T) -> Result<bool, Stop>
    ensures { (action : BytesAction) (b : List ℕ) (start : SinkState)
        → HasConverted action b path.old start (T.state sink.old)
        → EndConverted action b start result (T.state sink.new) }
{
    if path.is_open() {
        return Err(Stop::NotSeven);
    }
    let Ok(()) = put_all(sink, path.finish().as_slice()) else {
        return Err(Stop::WriteFault);
    };
    let Ok(()) = sink.flush() else {
        return Err(Stop::WriteFault);
    };
    Ok(false)
}

/// Takes the selected page piece by piece and puts it converted. Answers that no item of it is refused,
/// since none is read.
#[tactic(auto, using(crate::proofs::PagesInPieces::keeps_shelf_more))]
fn convert_page<F: Shelf, T: Sink>(
    action: BytesAction,
    shelf: &mut F,
    sink: &mut T,
) -> Result<bool, Stop>
    requires selected { (F.state shelf.old).taken ≡ 0 }
    requires unended { (F.state shelf.old).ended ≡ false }
    ensures ends { PageConverted action (F.state shelf.old) (T.state sink.old) result
        (F.state shelf.new) (T.state sink.new) }
    ensures shelf { KeepsShelf (F.state shelf.old) (F.state shelf.new) }
{
    let mut path = Path::new(action);
    let mut text = Text::new();
    let mut piece = [0u8; PIECE];
    let mut place = 0u64;
    loop {
        let Ok(count) = shelf.take(&mut piece) else {
            return Err(Stop::ReadFault);
        };
        if count == 0 {
            return put_end(&mut path, sink);
        }
        let fitting = (count as u64).min(LIMIT - place);
        put_piece(&mut path, &piece[..fitting as usize], &mut text, sink)?;
        if fitting < count as u64 {
            return Err(Stop::TooLong);
        }
        place += fitting;
    }
}

/// Puts the bytes of a page in another form.
pub fn put_bytes<F: Shelf, T: Sink>(
    action: BytesAction,
    page: &str,
    shelf: &mut F,
    sink: &mut T,
) -> Result<bool, Stop>
    ensures { (glass : GlassState) → RunsCourse (course_of (Bytes action page.now))
        (outside_of (F.state shelf.old) (T.state sink.old) glass)
        (outside_of (F.state shelf.new) (T.state sink.new) glass) (status_at_end result) }
{
    let Ok(()) = shelf.select(page) else {
        return Err(Stop::ReadFault);
    };
    convert_page(action, shelf, sink)
}
