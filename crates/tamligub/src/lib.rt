//! The program for C and for the web: as one function over a word, a page and a script in slices, with room
//! for the text, that keeps nothing between calls; and as a decoder that is fed bytes as they come, and then
//! edited line by line.
#![tactic(auto)]

mod answer;
mod block;
mod calling;
mod handle;
mod late_glass;
mod law;
mod lines;
mod live;
#[cfg(test)]
mod live_tests;
mod parts;
mod snapshot;
#[cfg(test)]
mod tests;
mod words;

ghost use Rattle.std.specs.Prelude.{◌≤◌, length};
ghost use Rattle.tamligub.specs.Called.{Called, FaultReported, FrontReported, IsMissed, Reported};
ghost use Rattle.tamligub.specs.Called.{MemoryTaken, NothingPut, UsageAnswered};

use crate::calling::Call;
pub use law::{notices_are_read_back, what_is_told_is_the_report, what_lines_make_is_the_edit};
use std::alloc::Global;

/// Runs the program on a word and what is given after it: 0 nothing, 1 the page, 2 the page and the
/// script, 3 the number, 4 the page and the number; any other means nothing. Puts the text at the
/// front of `out`, as far as there is room, and its length in `put`. Answers the status, 0 to 8.
#[unsafe(no_mangle)]
pub extern "C" fn tamligub_run(
    alloc: Global,
    word: &[u8],
    given: u32,
    number: u32,
    page: &[u8],
    script: &[u8],
    out: &mut [u8],
    put: &mut u64,
) -> u32
    ensures called { Called word.now given number page.now script.now out.old out.new put.new
        result }
    ensures reported { Reported word.now given number page.now script.now out.old out.new put.new
        result }
    ensures front { FrontReported word.now given number page.now script.now out.old out.new put.new
        result }
    ensures fault { FaultReported word.now given number page.now script.now out.old out.new put.new
        result }
    ensures usage { UsageAnswered word.now given number result }
    ensures nothing { NothingPut out.old out.new put.new result }
    ensures missed { IsMissed word.now given number result }
    ensures memory { MemoryTaken word.now given number result }
    ensures within { put.new ≤ length out.old }
{
    let call = Call {
        word,
        given,
        number,
        page,
        script,
    };
    u32::from(call.answer(alloc, out, put).number())
}
