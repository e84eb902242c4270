//! A decoder that keeps its place between pieces of a page.
ghost use Rattle.std.specs.Prelude.{◌≡◌, ℕ, ◌+◌, ◌^◌, ◌<◌, ◌≤◌, ◌⊎◌, ◌∷◌, [], length};
ghost use Rattle.std.specs.Prelude.{◌↔◌, true, false, List, IfOk, IfSome, IsNone, Some};
ghost use Rattle.std.specs.List.{AllByRecursion};
ghost use Rattle.cept_codes.specs.Command.{IsValidCommand};
ghost use Rattle.cept_codes.specs.Look.{blank_look};
ghost use Rattle.cept_codes.specs.Table.{table};
ghost use Rattle.cept_editor.specs.Meaning.{Edit as EditOf, UndoRedo as UndoRedoOf};
ghost use Rattle.cept_outside.specs.Ledger.{IsBlankOf};
ghost use Rattle.cept_profile.specs.Changes.{look_at};
ghost use Rattle.cept_profile.specs.Look.{looks_of};
ghost use Rattle.cept_profile.specs.State.{core_of};
ghost use Rattle.cept_writer.specs.CompactCommands.{page_text};

use crate::colours::ColourEntries;
use crate::edits::Editing;
use crate::flashing::{Before, Turning};
use crate::lines::{LONGEST_LINE, Lined, ROOM_FOR_A_LINE};
use crate::notice::Notice;
use crate::parts::{Parts, marks_of, parts_of};
use crate::restore::bring_back;
use crate::snapshot::put_snapshot;
use crate::state::DecoderState;
use crate::tell::{Display, take_items, tell_marked};
use crate::writing::{Text, has_bytes, put_front};
use cept_codes::{NoMemory, Pos};
use cept_control::Control;
use cept_editor::{Commands, Edit, UndoRedo, read_line};
use cept_flash::next_phase;
use cept_outside::{Sink, Steps, WriteFault};
use cept_parser::{Closed, Parser};
use cept_profile::validity_is_kept;
use cept_repaint::{Marks, Screen};
use std::alloc::Global;
use std::marker::{Brand, Model};
use std::sync::ledger::{Blank, Ledger};

/// How many notices one byte may need: it closes two items at most, each of 960 places at most.
pub const ROOM_FOR_A_BYTE: usize = 1920;

/// How many notices a phase of flashing may need.
pub const ROOM_FOR_A_PHASE: usize = 960;

/// How many bytes were taken, and how many notices were put.
#[derive(Clone, Copy, Debug, PartialEq, Eq)]
pub struct Fed {
    pub taken: usize,
    pub notices: usize,
}

/// A decoder, the display of its commands, and the phase of flashing that it shows. After the page has
/// ended it is edited, line by line. All its memory is taken at the start, but for what edits need,
/// which is taken at the first one.
#[derive(Drop)]
pub struct Live {
    parser: Parser,
    display: Display,
    closed: Closed,
    ended: bool,
    phase: Option<u8>,
    edits: Option<Editing>,
}

impl Model for Live {
    ghost use Rattle.cept_live.specs.Editing.{future_of, past_of};
    ghost use Rattle.cept_live.specs.Live.{LiveState};
    ghost use Rattle.cept_live.specs.Fields.{IsInStep};

    ghost Value = { LiveState };

    ghost view = { λ l. record {
      parser = l.parser;
      screen = l.display.screen;
      phase = l.phase;
      renewed = l.display.renewed;
      past = past_of l.edits l.display.screen;
      future = future_of l.edits l.display.screen;
    } };

    ghost invariant = { λ l. IsInStep l.parser l.display.screen l.phase l.ended l.edits };
}

impl Live {
    ghost use Rattle.cept_live.specs.Colours.{colour_entries};
    ghost use Rattle.cept_live.specs.EditLines.{Counts, IsReady, LineDone, StepDone};
    ghost use Rattle.cept_live.specs.Live.{Ends, Feeds, FeedsAll, HasFed, IsPhase, LiveState, Stays};
    ghost use Rattle.cept_live.specs.Live.{TakesNoMore, live_start};
    ghost use Rattle.cept_live.specs.Notices.{change_notice};
    ghost use Rattle.cept_live.specs.Parts.{HasParts};
    ghost use Rattle.cept_live.specs.Shown.{Begins, PhaseDone, phase_after, shown};
    ghost use Rattle.cept_live.specs.Snapshots.{snapshot_of};
    ghost use Rattle.cept_live.specs.States.{state_record};
    ghost use Rattle.cept_live.specs.inside.Turning.{looks_before};
    ghost use Rattle.cept_live.specs.Written.{Writes};

    /// A decoder before the first byte.
    pub fn new(alloc: Global) -> Result<Live, NoMemory>
        ensures start { IfOk result (λ live. live ≡ live_start) }
        ensures fed { IfOk result (λ live. HasFed live []) }
    {
        Ok(Live {
            parser: Parser::new(),
            display: Display {
                screen: Screen::new(alloc)?,
                marks: Marks::new(),
                renewed: Marks::new(),
            },
            closed: Closed::new(),
            ended: false,
            phase: None,
            edits: None,
        })
    }

    /// Feeds one byte, and tells what its items say from a place of the list on. Answers where that
    /// ends.
    fn feed_byte<L: Ledger>(
        &mut self,
        byte: u8,
        list: &mut [Notice],
        from: usize,
        steps: &mut Steps<L>,
    ) -> usize
        requires running { self.old.parser.finished ≡ false }
        requires few { self.old.parser.place < 2 ^ 32 }
        requires room { from + 1920 ≤ length list.old }
        ensures feeds { Feeds self.old (byte ∷ []) list.old from self.new result list.new }
        ensures running { self.new.parser.finished ≡ false }
        ensures most { result ≤ from + 1920 }
    {
        self.parser.push_into(byte, &mut self.closed);
        take_items(self.closed.as_slice(), &mut self.display, list, from, steps)
    }

    /// Whether it takes more bytes: the page has not ended, and fewer than 2^32 were fed.
    fn takes_more(&self) -> bool
        ensures more { result ≡ true
            → (self.now.parser.finished ≡ false) × (self.now.parser.place < 2 ^ 32) }
        ensures no_more { result ≡ false → TakesNoMore self.now }
    {
        !self.ended && self.parser.place() < 1 << 32
    }

    /// Feeds bytes, as long as there is room for all that the next one may change.
    fn feed_counted<L: Ledger>(
        &mut self,
        bytes: &[u8],
        list: &mut [Notice],
        steps: &mut Steps<L>,
    ) -> Fed
        ensures { FeedsAll self.old bytes.now list.old self.new result.taken result.notices list.new }
    {
        let mut taken = 0usize;
        let mut notices = 0usize;
        while taken < bytes.len() && list.len() - notices >= ROOM_FOR_A_BYTE && self.takes_more() {
            notices = self.feed_byte(bytes[taken], list, notices, steps);
            taken += 1;
        }
        Fed { taken, notices }
    }

    /// Feeds with a ledger that nobody reads.
    fn feed_by<L: Ledger>(&mut self, bytes: &[u8], list: &mut [Notice], blank: Blank) -> Fed
        requires blank { IsBlankOf L.name L.parts blank.name blank.parts }
        ensures { FeedsAll self.old bytes.now list.old self.new result.taken result.notices list.new }
    {
        let mut steps = Steps::<L>::new(blank);
        self.feed_counted(bytes, list, &mut steps)
    }

    /// Feeds bytes, as long as there is room for all that the next one may change, and tells what
    /// their items say from the start of the list on. What stands there after the notices stays.
    pub fn feed(&mut self, bytes: &[u8], list: &mut [Notice]) -> Fed
        ensures { FeedsAll self.old bytes.now list.old self.new result.taken result.notices list.new }
    {
        let blank = Blank::new(1);
        self.feed_by::<Brand>(bytes, list, blank)
    }

    /// Ends the page and tells what its last item says.
    fn end_by<L: Ledger>(&mut self, list: &mut [Notice], blank: Blank) -> usize
        requires running { self.old.parser.finished ≡ false }
        requires room { 1920 ≤ length list.old }
        requires blank { IsBlankOf L.name L.parts blank.name blank.parts }
        ensures { Ends self.old list.old 0 self.new result list.new }
    {
        let mut steps = Steps::<L>::new(blank);
        let items = self.parser.finish();
        self.ended = true;
        take_items(items.as_slice(), &mut self.display, list, 0, &mut steps)
    }

    /// Whether the page has ended.
    pub fn has_ended(&self) -> bool
        ensures { result ≡ self.now.parser.finished }
    {
        self.ended
    }

    /// Ends the page, and tells what its last item says from the start of the list on. Answers how
    /// many notices were put; none where the page had ended before, or the list has room for fewer
    /// than 1,920: all stays then.
    pub fn finish(&mut self, list: &mut [Notice]) -> Option<usize>
        ensures ends { IfSome result (λ notices. Ends self.old list.old 0 self.new notices
            list.new) }
        ensures causes { IsNone result ↔ ((self.old.parser.finished ≡ true)
            ⊎ (length list.old < 1920)) }
        ensures stays { IsNone result → Stays self.old list.old self.new list.new }
    {
        if self.has_ended() || list.len() < ROOM_FOR_A_BYTE {
            return None;
        }
        let blank = Blank::new(1);
        Some(self.end_by::<Brand>(list, blank))
    }

    /// Makes an edit of these commands, or takes no memory for it.
    fn edit_by<L: Ledger>(
        &mut self,
        alloc: Global,
        commands: Commands<'_>,
        list: &mut [Notice],
        blank: Blank,
    ) -> Lined
        requires ready { IsReady self.old list.old }
        requires valid { AllByRecursion IsValidCommand commands }
        requires some { 0 < length commands }
        requires blank { IsBlankOf L.name L.parts blank.name blank.parts }
        ensures { StepDone (EditOf commands.entry) self.old list.old result self.new list.new }
    {
        let Ok(mut editing) = Editing::of(self.edits.take(), alloc, &self.display.screen) else {
            return Lined::NoMemory;
        };
        let mut steps = Steps::<L>::new(blank);
        let mut changed = Marks::new();
        let Display {
            screen,
            marks,
            renewed,
        } = &mut self.display;
        editing.make(screen, commands, marks, &mut changed, &mut steps);
        let notices = tell_marked(self.parser.place(), &changed, screen, renewed, list, 0);
        self.edits = Some(editing);
        Lined::Made(notices)
    }

    /// Undoes the last kept edit, or redoes the last undone one.
    fn undo_redo_by<L: Ledger>(
        &mut self,
        which: UndoRedo,
        list: &mut [Notice],
        blank: Blank,
    ) -> Lined
        requires ready { IsReady self.old list.old }
        requires blank { IsBlankOf L.name L.parts blank.name blank.parts }
        ensures { StepDone (UndoRedoOf which) self.old list.old result self.new list.new }
    {
        let Some(mut editing) = self.edits.take() else {
            return Lined::Nothing;
        };
        let mut steps = Steps::<L>::new(blank);
        let mut changed = Marks::new();
        let Display {
            screen,
            marks,
            renewed,
        } = &mut self.display;
        let moved = editing.undo_redo(screen, which, marks, &mut changed, &mut steps);
        self.edits = Some(editing);
        if !moved {
            return Lined::Nothing;
        }
        let notices = tell_marked(self.parser.place(), &changed, screen, renewed, list, 0);
        Lined::Made(notices)
    }

    /// Makes one line of a script, without its end, after the page has ended: an edit, an undo or a
    /// redo. Tells each place that a command of it changes once, in reading order, with its look after
    /// the line, from the start of the list on. Memory is taken at the first edit alone.
    pub fn line(&mut self, alloc: Global, line: &[u8], list: &mut [Notice]) -> Lined
        ensures { LineDone line.now self.old list.old result self.new list.new }
    {
        if !self.has_ended() || list.len() < ROOM_FOR_A_LINE {
            return Lined::Early;
        }
        if line.len() > LONGEST_LINE {
            return Lined::TooLong;
        }
        let blank = Blank::new(1);
        match read_line(line) {
            Ok(None) => Lined::Nothing,
            Ok(Some(Edit::UndoRedo(which))) => self.undo_redo_by::<Brand>(which, list, blank),
            Ok(Some(Edit::Commands(commands))) => {
                self.edit_by::<Brand>(alloc, commands, list, blank)
            }
            Err(reason) => Lined::Bad(reason),
        }
    }

    /// How many edits can be undone.
    pub fn kept(&self) -> u32
        ensures { Counts result self.now.past }
    {
        match &self.edits {
            Some(editing) => editing.kept(&self.display.screen),
            None => 0,
        }
    }

    /// How many edits were undone and can be redone.
    pub fn undone(&self) -> u32
        ensures { Counts result self.now.future }
    {
        match &self.edits {
            Some(editing) => editing.undone(&self.display.screen),
            None => 0,
        }
    }

    /// The colours in force.
    pub fn colours(&self) -> ColourEntries
        ensures { result ≡ colour_entries self.now.screen.page }
    {
        ColourEntries::of(&self.display.screen)
    }

    /// The look at a place as it was fed, as a notice after the bytes fed so far.
    pub fn notice_at(&self, at: Pos) -> Notice
        ensures { result ≡ change_notice self.now.parser.place at
            (look_at (looks_of (core_of self.now.screen)) at) }
    {
        Notice::of_change(self.parser.place(), at, &self.display.screen.look(at))
    }

    /// Where it stands.
    pub fn state(&self) -> DecoderState
        ensures { result ≡ state_record self.now }
    {
        let pending = self.parser.pending() as u8;
        DecoderState::of(
            self.parser.place(),
            pending,
            self.ended,
            self.display.screen.control(),
        )
    }

    /// Puts the page, written, at the front of `out`, where there is room for all of it, and answers
    /// how many bytes it has; `None` where it is longer than `out`, which stays.
    pub fn write(&self, alloc: Global, out: &mut [u8]) -> Result<Option<usize>, NoMemory>
        ensures { Writes (page_text (core_of self.now.screen)) out.old result out.new }
    {
        put_front(alloc, &self.display.screen, out)
    }

    /// Begins a phase of flashing: tells the places that are shown otherwise at it, from the start of
    /// the list on. Answers how many.
    fn begin(&mut self, before: Before, phase: u8, list: &mut [Notice]) -> usize
        requires room { 960 ≤ length list.old }
        requires phase { phase < 6 }
        ensures { Begins self.old
            (looks_before before (looks_of (core_of self.old.screen)) self.old.renewed) phase list.old
            self.new result list.new }
    {
        let turning = Turning {
            before,
            renewed: &self.display.renewed,
            screen: &self.display.screen,
            phase,
        };
        let to = turning.tell(self.parser.place(), list);
        self.display.renewed.clear();
        self.phase = Some(phase);
        to
    }

    /// Begins the first phase of flashing over a blank display: tells the places that are not blank
    /// at it, with their looks there, from the start of the list on. Answers how many; none where the
    /// list has room for fewer than 960: all stays then.
    pub fn flash_start(&mut self, list: &mut [Notice]) -> Option<usize>
        ensures { PhaseDone self.old (table (λ _ _. blank_look)) 0 list.old result self.new list.new }
    {
        if list.len() < ROOM_FOR_A_PHASE {
            return None;
        }
        Some(self.begin(Before::Blank, 0, list))
    }

    /// Begins the next phase of flashing over what is shown, after the last the first, and where none
    /// had begun the first: tells the places that are shown otherwise at it, with their looks there,
    /// from the start of the list on. Answers how many; none where the list has room for fewer than
    /// 960: all stays then.
    pub fn flash_turn(&mut self, list: &mut [Notice]) -> Option<usize>
        ensures { PhaseDone self.old (shown self.old) (phase_after self.old.phase) list.old result
            self.new list.new }
    {
        if list.len() < ROOM_FOR_A_PHASE {
            return None;
        }
        let phase = match self.phase {
            None => 0,
            Some(before) => next_phase(before),
        };
        Some(self.begin(Before::Shown(self.phase), phase, list))
    }

    /// Puts a snapshot, all of the state of a decoder that runs, at the front of `out`, where there is
    /// room for all of it, and answers how many bytes it has; `None` where it is longer than `out`,
    /// which stays.
    pub fn snapshot(&self, alloc: Global, out: &mut [u8]) -> Result<Option<usize>, NoMemory>
        ensures text { Writes (snapshot_of self.now) out.old result out.new }
        ensures phase { IsPhase self.now.phase }
    {
        // A field that is read opens the model, so that what it promises of the phase is known.
        let _phase = self.phase;
        put_front(alloc, self, out)
    }

    /// Takes the parts of a snapshot. Answers whether some decoder has them.
    // The stack of a call is that of one step at a time.
    #[inline(never)]
    fn take_parts(&mut self, parts: &Parts<'_>) -> Result<bool, NoMemory>
        requires start { self.old ≡ live_start }
        requires phase { IsPhase parts.now.phase }
        ensures back { (live : LiveState) (bytes : List ℕ) → HasFed live bytes
            → HasParts live parts.now → IfOk result (λ is_back. (is_back ≡ true)
            × (self.new ≡ live)) }
        ensures running { self.new.parser.finished ≡ false }
    {
        // A law: valid commands keep control valid.
        validity_is_kept();
        let Some(parser) = Parser::resumed(parts.place, parts.context, parts.pending) else {
            return Ok(false);
        };
        let Some(control) = Control::of_bytes(parts.control) else {
            return Ok(false);
        };
        self.parser = parser;
        self.phase = parts.phase;
        self.display.renewed = marks_of(parts.renewed);
        bring_back(&mut self.display.screen, parts.page, &control)
    }

    /// Makes of a decoder before the first byte the one whose snapshot these bytes are, in its place.
    /// Answers whether they are a decoder's; where they aren't, or there is no memory, it is some
    /// decoder. It goes on where the other one stood: it is that one wherever bytes were fed to it and
    /// its page had not ended. A text of 2^32 bytes or more is none's, or finds no memory.
    pub fn restore(&mut self, alloc: Global, text: &[u8]) -> Result<bool, NoMemory>
        requires start { self.old ≡ live_start }
        ensures back { (live : LiveState) (bytes : List ℕ) → HasFed live bytes
            → snapshot_of live ≡ text.now → IfOk result (λ is_back. (is_back ≡ true)
            × (self.new ≡ live)) }
        ensures only { IfOk result (λ is_back. is_back ≡ true → snapshot_of self.new ≡ text.now) }
        ensures running { self.new.parser.finished ≡ false }
    {
        if self.take_parts(&parts_of(text))? {
            has_bytes(alloc, &*self, text)
        } else {
            Ok(false)
        }
    }

    /// The decoder whose snapshot these bytes are, none where they are no decoder's. It goes on where
    /// the other one stood: it is that one wherever bytes were fed to it and its page had not ended.
    /// A text of 2^32 bytes or more is none's, or finds no memory.
    pub fn restored(alloc: Global, text: &[u8]) -> Result<Option<Live>, NoMemory>
        ensures back { (live : LiveState) (bytes : List ℕ) → HasFed live bytes
            → snapshot_of live ≡ text.now → IfOk result (λ found. found ≡ Some live) }
        ensures only { IfOk result (λ found. IfSome found (λ live. snapshot_of live ≡ text.now)) }
        ensures running { IfOk result (λ found. IfSome found
            (λ live. live.parser.finished ≡ false)) }
    {
        let mut live = Live::new(alloc)?;
        if live.restore(alloc, text)? {
            Ok(Some(live))
        } else {
            Ok(None)
        }
    }
}

/// All of the state of a decoder that runs.
impl Text for Live {
    ghost use Rattle.cept_live.specs.Snapshots.{snapshot_of};

    ghost text = { snapshot_of };

    fn put_into<T: Sink>(&self, sink: &mut T) -> Result<(), WriteFault> {
        put_snapshot(
            sink,
            &self.parser,
            &self.display.screen,
            self.phase,
            &self.display.renewed,
        )
    }
}
