//! Takes a page from the shelf and has it read, to its end or as far as it goes.

ghost use Rattle.std.specs.Prelude.{◌≡◌, ◌+◌, ◌-◌, ◌<◌, [], false};
ghost use Rattle.cept_editor.specs.Made.{Output};
ghost use Rattle.cept_run.specs.Outside.{outside_of};
ghost use Rattle.cept_run.specs.Page.{PageEnds, KeepsShelf};
ghost use Rattle.cept_run.specs.Reporting.{HasRead, plan_in};

use crate::decoder::Decoder;
use cept_codes::NoMemory;
use cept_outside::{Shelf, Sink, Steps, WriteFault};
use cept_parser::laws::reading_goes_on;
use cept_repaint::Glass;
use std::sync::ledger::Ledger;

/// The greatest number of bytes of a page.
pub(crate) const LIMIT: u64 = 1 << 24;

/// The number of bytes that are taken at once at most.
pub(crate) const PIECE: usize = 4096;

/// Why a run stops before its end.
#[derive(Clone, Copy, Debug, PartialEq, Eq)]
pub enum Stop {
    /// The shelf failed.
    ReadFault,
    /// The sink failed.
    WriteFault,
    /// The page has more than 2^24 bytes, or the script or the drawing more than 2^20.
    TooLong,
    /// A line of the script or the drawing is outside the grammar.
    Script,
    /// There is no memory.
    NoMemory,
    /// A byte of the page can't be read from seven bits, or the page can't end where it does.
    NotSeven,
}

impl From<NoMemory> for Stop {
    ghost use Rattle.cept_run.specs.declared.page.Stop.TheVariants.{NoMemory};

    ghost from_gives = { λ _ stop. stop ≡ NoMemory };

    fn from(_want: NoMemory) -> Stop {
        Stop::NoMemory
    }
}

impl From<WriteFault> for Stop {
    ghost use Rattle.cept_run.specs.declared.page.Stop.TheVariants.{WriteFault};

    ghost from_gives = { λ _ stop. stop ≡ WriteFault };

    fn from(_fault: WriteFault) -> Stop {
        Stop::WriteFault
    }
}

/// Takes the selected page piece by piece and reports its items, and at the end what is left.
/// Answers how many bytes it has.
#[tactic(auto, using(crate::proofs::PagesInPieces::keeps_shelf_more))]
pub fn read_page<F: Shelf, T: Sink, G: Glass, L: Ledger>(
    decoder: &mut Decoder,
    shelf: &mut F,
    sink: &mut T,
    glass: &mut G,
    steps: &mut Steps<L>,
) -> Result<u64, Stop>
    requires fresh { (start : Output)
        → HasRead (plan_in decoder.old.reporter) decoder.old [] start start }
    requires selected { (F.state shelf.old).taken ≡ 0 }
    requires unended { (F.state shelf.old).ended ≡ false }
    ensures ends { PageEnds (plan_in decoder.old.reporter)
        (outside_of (F.state shelf.old) (T.state sink.old) (G.state glass.old)) result
        decoder.new.reporter
        (outside_of (F.state shelf.new) (T.state sink.new) (G.state glass.new)) }
    ensures shelf { KeepsShelf (F.state shelf.old) (F.state shelf.new) }
{
    // A law: the items of more bytes are those of the first, and then others.
    reading_goes_on();
    let mut piece = [0u8; PIECE];
    let mut place = 0u64;
    loop {
        let Ok(count) = shelf.take(&mut piece) else {
            return Err(Stop::ReadFault);
        };
        if count == 0 {
            decoder.finish(sink, glass, steps)?;
            return Ok(place);
        }
        let fitting = (count as u64).min(LIMIT - place);
        decoder.read_piece(&piece[..fitting as usize], sink, glass, steps)?;
        if fitting < count as u64 {
            return Err(Stop::TooLong);
        }
        place += fitting;
    }
}
