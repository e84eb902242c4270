//! Lines of a script made on a decoder after its page has ended, as C calls it.
ghost use Rattle.std.specs.Prelude.{◌≡◌, true, false};
ghost use Rattle.cept_live.specs.Colours.{colour_entries};
ghost use Rattle.tamligub.specs.Decoders.{CountsOf, IsClosed, IsRefused, ToldOrRefused};
ghost use Rattle.tamligub.specs.EditLines.{AnswersLine, fault_number, line_answer, line_fault};
ghost use Rattle.tamligub.specs.EditLines.{line_notices};

use crate::handle::Decoder;
use cept_codes::LineReason;
use cept_live::{ColourEntries, Lined, Notice};
use std::alloc::Global;

/// The number of a reason for which a line is outside the grammar of scripts.
fn fault_number(reason: LineReason) -> u32
    ensures { result ≡ fault_number reason }
{
    match reason {
        LineReason::UnknownWord => 1,
        LineReason::WrongCount => 2,
        LineReason::BadNumber => 3,
        LineReason::BadText => 4,
        LineReason::BadHex => 5,
        LineReason::BadBytes => 6,
    }
}

/// The answer of a line.
fn line_answer(lined: &Lined) -> u32
    ensures { result ≡ line_answer lined.now }
{
    match lined {
        Lined::Made(_) => 0,
        Lined::Early => 1,
        Lined::Nothing => 2,
        Lined::Bad(_) => 3,
        Lined::NoMemory => 6,
        Lined::TooLong => 7,
    }
}

/// The number of its notices.
fn line_notices(lined: &Lined) -> u64
    ensures { result ≡ line_notices lined.now }
{
    match lined {
        Lined::Made(notices) => *notices as u64,
        _ => 0,
    }
}

/// The number of the reason for which it is outside the grammar, 0 where it isn't.
fn line_fault(lined: &Lined) -> u32
    ensures { result ≡ line_fault lined.now }
{
    match lined {
        Lined::Bad(reason) => fault_number(*reason),
        _ => 0,
    }
}

/// Makes a line of a script after the page has ended. Puts each place that it changes, with its look
/// after it, at the front of `list`, and their number in `notices`. Answers 0; 1 where no decoder is
/// open, the page has not ended, or `list` has room for fewer notices than a line may need; 2 where
/// there is nothing to make; 3 where the line is outside the grammar of scripts, with the number of the
/// reason in `reason`; 6 where there is no memory for the first edit; 7 where it has more than 2^20
/// bytes.
#[unsafe(no_mangle)]
pub extern "C" fn tamligub_line(
    alloc: Global,
    decoder: &mut Decoder,
    line: &[u8],
    list: &mut [Notice],
    notices: &mut u64,
    reason: &mut u32,
) -> u32
    ensures line { decoder.old.is_open ≡ true → AnswersLine line.now decoder.old.block.value list.old
        result notices.new reason.new decoder.new.block.value list.new }
    ensures closed { decoder.old.is_open ≡ false → (result ≡ 1) × ((reason.new ≡ 0)
        × IsRefused decoder.old decoder.new list.old list.new notices.new) }
    ensures is_open { decoder.new.is_open ≡ decoder.old.is_open }
{
    *notices = 0;
    *reason = 0;
    let Some(mut live) = decoder.take(alloc) else {
        return 1;
    };
    let lined = live.line(alloc, line, list);
    decoder.put(live);
    *notices = line_notices(&lined);
    *reason = line_fault(&lined);
    line_answer(&lined)
}

/// How many edits can be undone, at most 64; none where no decoder is open.
#[unsafe(no_mangle)]
pub extern "C" fn tamligub_kept(alloc: Global, decoder: &mut Decoder) -> u32
    ensures { CountsOf (λ live. live.past) decoder.old decoder.new result }
{
    let Some(live) = decoder.take(alloc) else {
        return 0;
    };
    let kept = live.kept();
    decoder.put(live);
    kept
}

/// How many edits were undone and can be redone, at most 64; none where no decoder is open.
#[unsafe(no_mangle)]
pub extern "C" fn tamligub_undone(alloc: Global, decoder: &mut Decoder) -> u32
    ensures { CountsOf (λ live. live.future) decoder.old decoder.new result }
{
    let Some(live) = decoder.take(alloc) else {
        return 0;
    };
    let undone = live.undone();
    decoder.put(live);
    undone
}

/// Puts the colours in force in `colours`. Answers 0, or 1 where no decoder is open.
#[unsafe(no_mangle)]
pub extern "C" fn tamligub_colours(
    alloc: Global,
    decoder: &mut Decoder,
    colours: &mut ColourEntries,
) -> u32
    ensures { ToldOrRefused (λ live. colour_entries live.screen.page) IsClosed decoder.old
        decoder.new colours.old colours.new result }
{
    let Some(live) = decoder.take(alloc) else {
        return 1;
    };
    *colours = live.colours();
    decoder.put(live);
    0
}
