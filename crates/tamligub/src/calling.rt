//! A call: the run over a shelf that has the page and the script, a sink over the room for the text, and a
//! blank glass.
ghost use Rattle.std.specs.Prelude.{◌≡◌, IfSome, Some, true};
ghost use Rattle.std.specs.Option.{option_map};
ghost use Rattle.cept_run.specs.Course.{course_of};
ghost use Rattle.cept_run.specs.Words.{HasTwoNames, request_by, request_of};
ghost use Rattle.tamligub.specs.Called.{HasRun, RunsOn};
ghost use Rattle.tamligub.specs.Words.{words_for};
ghost use Rattle.tamligub.specs.inside.Blank.{RunsOverBlank};

use crate::late_glass::LateGlass;
use crate::words::{PAGE, SCRIPT, request_for};
use cept_outside::{Filled, Lent, Shelf, Sink, SliceFile, SliceShelf, SliceSink};
use cept_profile::the_first_grid;
use cept_repaint::GridGlass;
use cept_run::run::{Request, Status, run_request};
use itoa::Buffer;
use std::alloc::Global;
use std::marker::Brand;

/// Runs the program on a request that paints, over a glass in memory, where there is any.
#[inline(never)]
fn run_in_memory<F: Shelf, T: Sink>(
    alloc: Global,
    request: Request<'_>,
    shelf: &mut F,
    sink: &mut T,
) -> Status
    requires names { HasTwoNames (request_by request) }
    requires painting { (course_of (request_by request)).painting ≡ true }
    ensures { RunsOverBlank (request_by request.entry) (F.state shelf.old) (T.state sink.old)
        (F.state shelf.new) (T.state sink.new) result }
{
    // A law: before any command each place has the blank look.
    the_first_grid();
    let Ok(mut glass) = GridGlass::new(alloc) else {
        return Status::NoMemory;
    };
    run_request(alloc, request, shelf, sink, &mut glass)
}

/// Runs the program on a request over a glass that takes no memory.
// The glass stands on the stack of this call alone.
#[inline(never)]
fn run_late<F: Shelf, T: Sink>(
    alloc: Global,
    request: Request<'_>,
    shelf: &mut F,
    sink: &mut T,
) -> Status
    requires { HasTwoNames (request_by request) }
    ensures { RunsOverBlank (request_by request.entry) (F.state shelf.old) (T.state sink.old)
        (F.state shelf.new) (T.state sink.new) result }
{
    // A law: before any command each place has the blank look.
    the_first_grid();
    let mut glass = LateGlass::new();
    run_request(alloc, request, shelf, sink, &mut glass)
}

/// What is asked of the program: a word and what is given after it, with the page and the script.
#[derive(Clone, Copy)]
pub struct Call<'a> {
    pub word: &'a [u8],
    pub given: u32,
    pub number: u32,
    pub page: &'a [u8],
    pub script: &'a [u8],
}

impl<'a> Call<'a> {
    /// Whether the request that the words are paints.
    fn paints(&self, request: &Request<'_>) -> bool
        requires { request_of (words_for self.now.word.now self.now.given self.now.number)
            ≡ Some (request_by request.now) }
        ensures { result ≡ true → (course_of (request_by request.now)).painting ≡ true }
    {
        match request {
            Request::Page(action, _) => action.options().way.is_painted(),
            Request::Script(action, _, _) => action.options().way.is_painted(),
            Request::Flash(_, _) | Request::Drawing(_, _) => true,
            Request::Number(_, _) => self.word == b"load".as_slice(),
            Request::Bytes(_, _) => false,
        }
    }

    /// Runs the program on the request that the words are, with the page and the script. Where they are
    /// none it does nothing.
    fn run_on<T: Sink>(&self, alloc: Global, request: Option<Request<'_>>, sink: &mut T) -> Status
        requires request { option_map request_by request
            ≡ request_of (words_for self.now.word.now self.now.given self.now.number) }
        requires names { IfSome request (λ request. HasTwoNames (request_by request)) }
        ensures { RunsOn self.now.word.now self.now.given self.now.number self.now.page.now
            self.now.script.now (T.state sink.old) (T.state sink.new) result }
    {
        let files = [
            SliceFile {
                name: PAGE,
                bytes: self.page,
            },
            SliceFile {
                name: SCRIPT,
                bytes: self.script,
            },
        ];
        let mut shelf = SliceShelf::new(&files);
        let Some(request) = request else {
            return Status::Usage;
        };
        if self.paints(&request) {
            run_in_memory(alloc, request, &mut shelf, sink)
        } else {
            run_late(alloc, request, &mut shelf, sink)
        }
    }

    /// Runs the program, where the words are a request, and puts its text at the front of `out`.
    fn fill<'o, B: Lent>(&self, alloc: Global, out: &'o mut [u8], status: &mut Status) -> Filled<'o>
        requires named { out.ghost_name ≡ B.name }
        requires before { out.now ≡ B.before }
        ensures name { result.out.ghost_name ≡ out.entry.ghost_name }
        ensures run { HasRun self.now.word.now self.now.given self.now.number self.now.page.now
            self.now.script.now B.before result.out.now result.count status.new }
    {
        let mut digits = Buffer::new();
        let mut sink: SliceSink<'o, B> = SliceSink::new(out);
        let request = request_for(self.word, self.given, self.number, &mut digits);
        *status = self.run_on(alloc, request, &mut sink);
        sink.into_filled()
    }

    /// Runs the program, where the words are a request, and puts its text at the front of `out`, and
    /// its length in `put`.
    pub fn answer(&self, alloc: Global, out: &mut [u8], put: &mut u64) -> Status
        ensures { HasRun self.now.word.now self.now.given self.now.number self.now.page.now
            self.now.script.now out.old out.new put.new result }
    {
        let mut status = Status::Usage;
        let filled = self.fill::<Brand>(alloc, out, &mut status);
        *put = filled.count as u64;
        status
    }
}
