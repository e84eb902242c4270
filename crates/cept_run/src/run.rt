ghost use Rattle.std.specs.Prelude.{◌≡◌, ◌≢◌, ◌^◌, ◌<◌, ◌≤◌, [], List, None, Some, ℕ};
ghost use Rattle.std.specs.Prelude.{map, string_bytes, length, nat_lt};
ghost use Rattle.cept_editor.specs.Made.{Output};
ghost use Rattle.cept_generator.specs.Generated.{generated};
ghost use Rattle.cept_outside.specs.Ledger.{IsBlankOf};
ghost use Rattle.cept_outside.specs.QuietShelf.{quiet_shelf_state};
ghost use Rattle.cept_outside.specs.QuietSink.{quiet_sink_state};
ghost use Rattle.cept_outside.specs.ShelfState.{ShelfState};
ghost use Rattle.cept_parser.specs.Items.{closed_items};
ghost use Rattle.cept_run.specs.Course.{File, Given, ScriptSource, NoScript, report_course};
ghost use Rattle.cept_run.specs.Course.{course_of, sequel_in};
ghost use Rattle.cept_run.specs.Events.{end_text, refused_count, NoSequel};
ghost use Rattle.cept_run.specs.Outside.{outside_of};
ghost use Rattle.cept_run.specs.Page.{PutsEnd};
ghost use Rattle.cept_run.specs.Reporting.{Plan, StandsAtEnd, HasRead, plan_in, sequel_of};
ghost use Rattle.cept_run.specs.Reporting.{HasBlink, remaining_at_end};
ghost use Rattle.cept_run.specs.Run.{Runs, RunsCourse, Asks, IsShortScript};
ghost use Rattle.cept_run.specs.Run.{status_number, status_of, status_at_end};
ghost use Rattle.cept_run.specs.inside.ScriptReading.{ScriptKnown};
ghost use Rattle.cept_run.specs.Words.{Request as RequestOfWords, HasTwoNames, Page, Script as OfScript};
ghost use Rattle.cept_run.specs.Words.{Flash, Number, Drawing as OfDrawing, request_by, request_of};

use crate::converting::put_bytes;
use crate::decoder::Decoder;
use crate::generated::{put_generated, read_generated};
use crate::page::{Stop, read_page};
use crate::script::{read_drawing, read_script};
use crate::target::Target;
use crate::words::{
    BytesAction, DRAW_OPTIONS, LOAD_OPTIONS, NumberAction, PageAction, ScriptAction,
    options_of_phases, request_of,
};
pub use crate::words::{Request, request_with};

/// The name of a file. A parameter `&str` has a fact of its own, beside which no ghost members of a
/// ledger can be picked: `report_stored` takes this in its place.
#[derive(Clone, Copy)]
struct Name<'a> {
    text: &'a str,
}

use cept_editor::Editor;
use cept_flash::Blink;
use cept_generator::{generated_pages_are_read, generated_pages_are_short};
use cept_outside::{QuietShelf, QuietSink, Shelf, Sink, Steps};
use cept_profile::validity_is_kept;
use cept_repaint::{Glass, Screen};
use cept_writer::{compact_pages_are_spelled, compact_texts_bring_pages_back};
use std::alloc::Global;
use std::marker::Brand;
use std::sync::ledger::{Blank, Ledger};

/// How a run ends. The program ends with its number.
#[derive(Clone, Copy, Debug, PartialEq, Eq)]
pub enum Status {
    /// The page was read to its end, and nothing in it is refused.
    Done,
    /// The page was read to its end, and an item in it is refused.
    Refusals,
    /// The words are no request.
    Usage,
    /// A line of the script or the drawing is outside the grammar.
    Script,
    /// The page, the script or the drawing can't be opened or read.
    ReadFault,
    /// The output failed.
    WriteFault,
    /// There is no memory.
    NoMemory,
    /// The page has more than 2^24 bytes, or the script or the drawing more than 2^20.
    TooLong,
    /// A byte of the page can't be read from seven bits, or the page can't end where it does.
    NotSeven,
}

impl Status {
    /// The number that the program ends with.
    pub fn number(self) -> u8
        ensures { result ≡ status_number self }
    {
        match self {
            Status::Done => 0,
            Status::Refusals => 1,
            Status::Usage => 2,
            Status::Script => 3,
            Status::ReadFault => 4,
            Status::WriteFault => 5,
            Status::NoMemory => 6,
            Status::TooLong => 7,
            Status::NotSeven => 8,
        }
    }

    /// The status of a page that was read to its end.
    fn of_whole(refused: bool) -> Status
        ensures { result ≡ status_at_end (Ok refused) }
    {
        if refused {
            Status::Refusals
        } else {
            Status::Done
        }
    }

    /// The status of a run that stopped.
    fn of_stop(stop: Stop) -> Status
        ensures { result ≡ status_of stop }
    {
        match stop {
            Stop::ReadFault => Status::ReadFault,
            Stop::WriteFault => Status::WriteFault,
            Stop::TooLong => Status::TooLong,
            Stop::Script => Status::Script,
            Stop::NoMemory => Status::NoMemory,
            Stop::NotSeven => Status::NotSeven,
        }
    }

    /// The status of what was answered: whether an item was refused, or why the run stopped.
    fn at_end(answer: Result<bool, Stop>) -> Status
        ensures { result ≡ status_at_end answer }
    {
        match answer {
            Ok(refused) => Status::of_whole(refused),
            Err(stop) => Status::of_stop(stop),
        }
    }
}

/// Puts the text at the end of a page of so many bytes and flushes. Answers whether an item was
/// refused.
fn end_report<T: Sink, G: Glass>(
    decoder: &Decoder,
    bytes: u64,
    blink: &mut Option<Blink>,
    sink: &mut T,
    glass: &G,
) -> Result<bool, Stop>
    ensures { (plan : Plan) (page : List ℕ)
        → StandsAtEnd plan decoder.now.reporter (closed_items page)
        → HasBlink plan.options.end blink.old
        → bytes ≡ length page
        → PutsEnd (end_text plan.options (G.state glass.now).grid page
        (remaining_at_end plan (closed_items page)))
        (nat_lt 0 (refused_count (closed_items page))) (T.state sink.old) result (T.state sink.new) }
{
    decoder.put_end(bytes, blink, sink, glass)?;
    let Ok(()) = sink.flush() else {
        return Err(Stop::WriteFault);
    };
    Ok(decoder.has_refusal())
}

/// Reads a page to its end, makes the edits of the script or draws the drawing, if there is one, puts
/// the text at the end and flushes. Answers whether an item of the page was refused.
fn report_stored<F: Shelf, T: Sink, G: Glass, L: Ledger>(
    decoder: &mut Decoder,
    blink: &mut Option<Blink>,
    page: &Name<'_>,
    shelf: &mut F,
    sink: &mut T,
    glass: &mut G,
    blank: Blank,
) -> Result<bool, Stop>
    requires fresh { (start : Output)
        → HasRead (plan_in decoder.old.reporter) decoder.old [] start start }
    requires blink { HasBlink decoder.old.reporter.options.end blink.old }
    requires blank { IsBlankOf L.name L.parts blank.name blank.parts }
    ensures { (script : ScriptSource) (bytes : List ℕ) (start : ShelfState)
        → ScriptKnown script bytes start (F.state shelf.old)
        → sequel_of (plan_in decoder.old.reporter) ≡ sequel_in script bytes
        → RunsCourse
        (report_course decoder.old.reporter.options (File page.now.text.now) script)
        (outside_of start (T.state sink.old) (G.state glass.old))
        (outside_of (F.state shelf.new) (T.state sink.new) (G.state glass.new))
        (status_at_end result) }
{
    // Laws: the bytes of a written page bring its core back, and none of them is refused.
    compact_pages_are_spelled();
    compact_texts_bring_pages_back();
    validity_is_kept();
    let Ok(()) = shelf.select(page.text) else {
        return Err(Stop::ReadFault);
    };
    let mut steps = Steps::<L>::new(blank);
    let bytes = read_page(decoder, shelf, sink, glass, &mut steps)?;
    decoder.make_edits(sink, glass, &mut steps)?;
    end_report(decoder, bytes, blink, sink, glass)
}

/// Reports a page by itself.
fn report_page<F: Shelf, T: Sink, G: Glass>(
    alloc: Global,
    action: PageAction,
    page: &str,
    shelf: &mut F,
    sink: &mut T,
    glass: &mut G,
) -> Result<bool, Stop>
    ensures { RunsCourse (course_of (Page action page.now))
        (outside_of (F.state shelf.old) (T.state sink.old) (G.state glass.old))
        (outside_of (F.state shelf.new) (T.state sink.new) (G.state glass.new))
        (status_at_end result) }
{
    let options = action.options();
    let target = Target::new(alloc, options.way)?;
    let mut decoder = Decoder::new(options, target);
    // No step is counted: the ledger is a blank one.
    let blank = Blank::new(1);
    report_stored::<F, T, G, Brand>(
        &mut decoder,
        &mut None,
        &Name { text: page },
        shelf,
        sink,
        glass,
        blank,
    )
}

/// Reads a script, and then reports a page and the edits of the script.
fn report_edited<F: Shelf, T: Sink, G: Glass>(
    alloc: Global,
    action: ScriptAction,
    page: &str,
    script: &str,
    shelf: &mut F,
    sink: &mut T,
    glass: &mut G,
) -> Result<bool, Stop>
    requires { script.now ≢ page.now }
    ensures { RunsCourse
        (course_of (OfScript action page.now script.now))
        (outside_of (F.state shelf.old) (T.state sink.old) (G.state glass.old))
        (outside_of (F.state shelf.new) (T.state sink.new) (G.state glass.new))
        (status_at_end result) }
{
    let editor = Editor::new(alloc)?;
    let script = read_script(alloc, script, shelf, sink)?;
    let mut decoder = Decoder::new(action.options(), Target::Editor(editor, script));
    // No step is counted: the ledger is a blank one.
    let blank = Blank::new(1);
    report_stored::<F, T, G, Brand>(
        &mut decoder,
        &mut None,
        &Name { text: page },
        shelf,
        sink,
        glass,
        blank,
    )
}

/// Reads a drawing, and then reports a page and draws the drawing on it.
fn report_drawn<F: Shelf, T: Sink, G: Glass>(
    alloc: Global,
    page: &str,
    drawing: &str,
    shelf: &mut F,
    sink: &mut T,
    glass: &mut G,
) -> Result<bool, Stop>
    requires { drawing.now ≢ page.now }
    ensures { RunsCourse
        (course_of (OfDrawing page.now drawing.now))
        (outside_of (F.state shelf.old) (T.state sink.old) (G.state glass.old))
        (outside_of (F.state shelf.new) (T.state sink.new) (G.state glass.new))
        (status_at_end result) }
{
    let screen = Screen::new(alloc)?;
    let drawing = read_drawing(alloc, drawing, shelf, sink)?;
    let mut decoder = Decoder::new(DRAW_OPTIONS, Target::Drawing(screen, drawing));
    // No step is counted: the ledger is a blank one.
    let blank = Blank::new(1);
    report_stored::<F, T, G, Brand>(
        &mut decoder,
        &mut None,
        &Name { text: page },
        shelf,
        sink,
        glass,
        blank,
    )
}

/// Reports a page that flashes through so many turns.
fn report_phases<F: Shelf, T: Sink, G: Glass>(
    alloc: Global,
    page: &str,
    turns: u16,
    shelf: &mut F,
    sink: &mut T,
    glass: &mut G,
) -> Result<bool, Stop>
    ensures { RunsCourse (course_of (Flash page.now turns))
        (outside_of (F.state shelf.old) (T.state sink.old) (G.state glass.old))
        (outside_of (F.state shelf.new) (T.state sink.new) (G.state glass.new))
        (status_at_end result) }
{
    let mut blink = Some(Blink::new(alloc)?);
    let options = options_of_phases(turns);
    let target = Target::new(alloc, options.way)?;
    let mut decoder = Decoder::new(options, target);
    // No step is counted: the ledger is a blank one.
    let blank = Blank::new(1);
    report_stored::<F, T, G, Brand>(
        &mut decoder,
        &mut blink,
        &Name { text: page },
        shelf,
        sink,
        glass,
        blank,
    )
}

/// Reads a generated page to its end, puts the text at the end and flushes. Answers whether an item
/// of the page was refused.
fn report_generated<T: Sink, G: Glass, L: Ledger>(
    decoder: &mut Decoder,
    number: u32,
    sink: &mut T,
    glass: &mut G,
    blank: Blank,
) -> Result<bool, Stop>
    requires fresh { (start : Output)
        → HasRead (plan_in decoder.old.reporter) decoder.old [] start start }
    requires alone { sequel_of (plan_in decoder.old.reporter) ≡ NoSequel }
    requires blink { HasBlink decoder.old.reporter.options.end None }
    requires blank { IsBlankOf L.name L.parts blank.name blank.parts }
    ensures { (shelf : ShelfState)
        → RunsCourse
        (report_course decoder.old.reporter.options (Given (generated number)) NoScript)
        (outside_of shelf (T.state sink.old) (G.state glass.old))
        (outside_of shelf (T.state sink.new) (G.state glass.new)) (status_at_end result) }
{
    // Laws: a generated page has no refused item and is short; the bytes of a written page bring its
    // core back, and none of them is refused.
    generated_pages_are_read();
    generated_pages_are_short();
    compact_pages_are_spelled();
    compact_texts_bring_pages_back();
    validity_is_kept();
    let mut steps = Steps::<L>::new(blank);
    let bytes = read_generated(decoder, number, sink, glass, &mut steps)?;
    decoder.make_edits(sink, glass, &mut steps)?;
    end_report(decoder, bytes, &mut None, sink, glass)
}

/// Reads and paints a generated page.
fn load<T: Sink, G: Glass>(
    alloc: Global,
    number: u32,
    sink: &mut T,
    glass: &mut G,
) -> Result<bool, Stop>
    ensures { (shelf : ShelfState) → RunsCourse (course_of (Number NumberAction.Load number))
        (outside_of shelf (T.state sink.old) (G.state glass.old))
        (outside_of shelf (T.state sink.new) (G.state glass.new)) (status_at_end result) }
{
    let target = Target::new(alloc, LOAD_OPTIONS.way)?;
    let mut decoder = Decoder::new(LOAD_OPTIONS, target);
    // No step is counted: the ledger is a blank one.
    let blank = Blank::new(1);
    report_generated::<T, G, Brand>(&mut decoder, number, sink, glass, blank)
}

/// Does what is asked for of a generated page.
fn report_number<T: Sink, G: Glass>(
    alloc: Global,
    action: NumberAction,
    number: u32,
    sink: &mut T,
    glass: &mut G,
) -> Result<bool, Stop>
    ensures { (shelf : ShelfState) → RunsCourse (course_of (Number action number))
        (outside_of shelf (T.state sink.old) (G.state glass.old))
        (outside_of shelf (T.state sink.new) (G.state glass.new)) (status_at_end result) }
{
    // A law: a generated page is short.
    generated_pages_are_short();
    match action {
        NumberAction::Generate => put_generated(number, sink),
        NumberAction::Load => load(alloc, number, sink, glass),
    }
}

/// Does what is asked for. Answers whether an item of the page was refused, or why it stopped.
fn report_request<F: Shelf, T: Sink, G: Glass>(
    alloc: Global,
    request: Request<'_>,
    shelf: &mut F,
    sink: &mut T,
    glass: &mut G,
) -> Result<bool, Stop>
    requires { HasTwoNames (request_by request) }
    ensures { RunsCourse (course_of (request_by request.entry))
        (outside_of (F.state shelf.old) (T.state sink.old) (G.state glass.old))
        (outside_of (F.state shelf.new) (T.state sink.new) (G.state glass.new))
        (status_at_end result) }
{
    match request {
        Request::Page(action, page) => report_page(alloc, action, page, shelf, sink, glass),
        Request::Bytes(action, page) => put_bytes(action, page, shelf, sink),
        Request::Script(action, page, script) => {
            report_edited(alloc, action, page, script, shelf, sink, glass)
        }
        Request::Number(action, number) => report_number(alloc, action, number, sink, glass),
        Request::Flash(page, turns) => report_phases(alloc, page, turns, shelf, sink, glass),
        Request::Drawing(page, drawing) => {
            report_drawn(alloc, page, drawing, shelf, sink, glass)
        }
    }
}

/// Runs the program on a request: it does all that `run` does on words that are this request.
pub fn run_request<F: Shelf, T: Sink, G: Glass>(
    alloc: Global,
    request: Request<'_>,
    shelf: &mut F,
    sink: &mut T,
    glass: &mut G,
) -> Status
    requires { HasTwoNames (request_by request) }
    ensures { (words : List (List ℕ)) → request_of words ≡ Some (request_by request.entry)
        → Runs words (outside_of (F.state shelf.old) (T.state sink.old) (G.state glass.old))
        (outside_of (F.state shelf.new) (T.state sink.new) (G.state glass.new)) result }
{
    Status::at_end(report_request(alloc, request, shelf, sink, glass))
}

/// Runs the program on its words, those after the program's name, over a shelf, a sink and a glass.
///
/// `changes PAGE`, `show PAGE`, `cells PAGE` and `write PAGE` apply the commands of the page one
/// after the other, and paint after each the cells that it changed on the glass. `changes` puts
/// their lines; `show` and `cells` put after the last item what the glass shows, and `write` the
/// bytes that bring the page back. `check PAGE` applies and paints nothing: it puts how many items
/// there are and how many are refused. `changes` and `check` put the line of a refused item, which
/// changes nothing. `list PAGE` paints nothing either, and puts the line of each item.
///
/// `trace PAGE SCRIPT` and `edit PAGE SCRIPT` read the script first. They apply and paint the page
/// likewise, and then the edits of the script, an undo by bringing back the state before the last
/// edit that is kept, a redo by bringing that after the first undone one. `trace` puts the lines of
/// the page's refused items, and the lines of the changes of each edit; `edit` the bytes that bring
/// the edited page back.
///
/// `plot PAGE DRAWING` reads the drawing first. It applies and paints the page likewise, and then the
/// commands that draw the drawing on it, and puts the bytes that bring the drawn page back.
///
/// `gen NUMBER` puts the generated page of the number, and paints nothing. `load NUMBER` reads and
/// paints it as `show` does a stored page, and puts how many bytes and items it has, and how many
/// cells were painted. Both take the page piece by piece, and leave the shelf.
///
/// `flash PAGE NUMBER` paints the page as `show` does, and puts the lines of the cells that aren't
/// blank at phase 0 of its flashing, and those of the cells that each of so many turns of the phase
/// changes, at most 600.
///
/// `seven PAGE` puts the bytes of the page in seven bits, and `eight PAGE` puts them back in eight,
/// as far as they can be read. Both paint nothing, and no item decides the status.
pub fn run<F: Shelf, T: Sink, G: Glass>(
    alloc: Global,
    words: &Vec<String>,
    shelf: &mut F,
    sink: &mut T,
    glass: &mut G,
) -> Status
    ensures { Runs (map string_bytes words.now.items)
        (outside_of (F.state shelf.old) (T.state sink.old) (G.state glass.old))
        (outside_of (F.state shelf.new) (T.state sink.new) (G.state glass.new)) result }
{
    let Some(request) = request_of(words.as_slice()) else {
        return Status::Usage;
    };
    run_request(alloc, request, shelf, sink, glass)
}

/// Runs the program over a shelf and a sink that never fail: it does all that `run` does, no fault
/// is answered, and only a page that is too long ends so.
pub fn run_quietly<G: Glass>(
    alloc: Global,
    words: &Vec<String>,
    shelf: &mut QuietShelf,
    sink: &mut QuietSink,
    glass: &mut G,
) -> Status
    ensures runs { Runs (map string_bytes words.now.items)
        (outside_of (quiet_shelf_state shelf.old) (quiet_sink_state sink.old) (G.state glass.old))
        (outside_of (quiet_shelf_state shelf.new) (quiet_sink_state sink.new) (G.state glass.new))
        result }
    ensures read_fault { result ≢ Status.ReadFault }
    ensures write_fault { result ≢ Status.WriteFault }
    ensures too_long { (request : RequestOfWords) (page : List ℕ)
        → Asks (map string_bytes words.now.items) (quiet_shelf_state shelf.old) request page
        → length page ≤ 2 ^ 24
        → IsShortScript (quiet_shelf_state shelf.old) (course_of request).script
        → result ≢ Status.TooLong }
{
    run(alloc, words, shelf, sink, glass)
}
