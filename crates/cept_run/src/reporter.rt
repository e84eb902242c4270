//! Reports items: applies and paints their commands where that is asked for, and puts their texts.
//! It knows no bytes of a page, no words and no files.

ghost use Rattle.std.specs.Prelude.{◌≡◌, ℕ, ◌+◌, ◌*◌, ◌^◌, ◌<◌, ◌≤◌, ◌∷◌, [], List, count_by};
ghost use Rattle.std.specs.Prelude.{length, nat_lt, if◌then◌else◌};
ghost use Rattle.std.specs.List.{AllByRecursion};
ghost use Rattle.cept_codes.specs.Command.{IsValidCommand, IsValidItem, IsValidSaid};
ghost use Rattle.cept_parser.specs.Items.{closed_items};
ghost use Rattle.cept_outside.specs.SinkState.{PutsText};
ghost use Rattle.cept_listing.specs.Listing.{item_line};
ghost use Rattle.cept_report.specs.Text.{refusal_line};
ghost use Rattle.cept_profile.specs.State.{state};
ghost use Rattle.cept_run.specs.Events.{counts_text, end_text, painted_end};
ghost use Rattle.cept_editor.specs.Made.{output_of};

use crate::edits::{draw, make_lines};
use crate::target::Target;
use crate::words::{End, ReportOptions, Way};
use cept_codes::{Command, Item, Reason, Said};
use cept_flash::Blink;
use cept_listing::put_item;
use cept_outside::{Sink, Steps, WriteFault};
use cept_repaint::{Glass, Marks, Screen};
use cept_report::{
    put_cells, put_changes_if, put_check, put_load, put_phases, put_refusal, put_screen,
};
use cept_writer::write_page;
use std::marker::Model;
use std::sync::ledger::Ledger;

/// Reports items one after the other, and then edits or a drawing: the options, what commands are
/// applied to with the places that the last one changed, how many items there were and were
/// refused, and how many places were painted, where these are counted.
#[derive(Drop)]
pub struct Reporter {
    options: ReportOptions,
    target: Target,
    marks: Marks,
    items: u64,
    refused: u64,
    painted: u64,
}

impl Model for Reporter {
    ghost use Rattle.std.specs.Prelude.{◌≤◌, ◌*◌};
    ghost use Rattle.cept_run.specs.Reporting.{ReporterState};

    ghost Value = { ReporterState };

    ghost view = { λ r. record {
      options = r.options;
      target = r.target;
      items = r.items;
      refused = r.refused;
      painted = r.painted;
    } };

    // A command paints each place once at most.
    ghost invariant = { λ r. (r.refused ≤ r.items) × (r.painted ≤ 960 * r.items) };
}

/// How many places are marked, where they are counted.
#[inline(always)]
fn count_marked(counting: bool, marks: &Marks) -> u64
    ensures count { result ≡ (if counting then count_by (λ marked. marked) marks.now else 0) }
    ensures few { result ≤ 960 }
{
    if counting { u64::from(marks.len()) } else { 0 }
}

/// Puts the line of an item.
// Apart, since the line is made on the stack, and its room would be the loop's.
#[inline(never)]
fn list_item<T: Sink>(item: &Item, sink: &mut T) -> Result<(), WriteFault>
    requires { IsValidItem item.now }
    ensures { PutsText (T.state sink.old) (item_line item.now) result (T.state sink.new) }
{
    put_item(sink, item)
}

impl Reporter {
    ghost use Rattle.cept_run.specs.Reporting.{Plan, StandsAtEnd, ReportsOn, EditsOn};
    ghost use Rattle.cept_run.specs.inside.Reporting.{Applies};
    ghost use Rattle.cept_run.specs.Reporting.{remaining_at_end, HasBlink};
    ghost use Rattle.cept_run.specs.Events.{refusal_text};
    ghost use Rattle.cept_run.specs.inside.Reporting.{is_quiet};
    ghost use Rattle.std.specs.Prelude.{true, false};
    ghost use Rattle.cept_repaint.specs.GlassState.{GlassState};

    /// A reporter before the first item, with its options and what commands are applied to.
    pub fn new(options: ReportOptions, target: Target) -> Reporter
        ensures { result ≡ record {
          options = options;
          target = target;
          items = 0;
          refused = 0;
          painted = 0;
        } }
    {
        Reporter {
            options,
            target,
            marks: Marks::new(),
            items: 0,
            refused: 0,
            painted: 0,
        }
    }

    /// Applies a command of the page, paints what it changes, counts the painted places and puts
    /// their lines, where that is asked for. Where there is no screen it puts the item's line.
    // In place, since most commands are attributes, which need little.
    #[inline(always)]
    fn apply<T: Sink, G: Glass, L: Ledger>(
        &mut self,
        item: &Item,
        command: &Command,
        sink: &mut T,
        glass: &mut G,
        steps: &mut Steps<L>,
    ) -> Result<(), WriteFault>
        requires item { IsValidItem item.now }
        requires valid { IsValidCommand command.now }
        requires few { self.old.items < 2 ^ 54 }
        requires counted { self.old.painted + 960 ≤ 960 * self.old.items }
        ensures { Applies self.old item.now command.now
            (output_of (T.state sink.old) (G.state glass.old)) result self.new
            (output_of (T.state sink.new) (G.state glass.new)) }
    {
        self.target.apply(command, glass, &mut self.marks, steps);
        let Some(screen) = self.target.screen() else {
            return list_item(item, sink);
        };
        self.painted += count_marked(self.options.end.is_counted(), &self.marks);
        put_changes_if(
            self.options.way.lists_changes(),
            sink,
            item.at,
            &self.marks,
            screen,
        )
    }

    /// Names refused bytes, where that is asked for.
    #[inline(never)]
    fn name_refusal<T: Sink>(
        &self,
        item: &Item,
        reason: Reason,
        sink: &mut T,
    ) -> Result<(), WriteFault>
        requires valid { IsValidItem item.now }
        ensures { PutsText (T.state sink.old) (refusal_text self.now.options item.now reason) result
            (T.state sink.new) }
    {
        if !self.options.refusals {
            Ok(())
        } else {
            match self.options.way {
                Way::List => put_item(sink, item),
                _ => put_refusal(sink, item.at, item.len, reason),
            }
        }
    }

    /// Names refused bytes in a line of their own, where that is asked for.
    // By values, since where items are counted alone nothing else asks where an item stands.
    #[inline(never)]
    fn name_alone<T: Sink>(
        &self,
        at: u64,
        len: u8,
        reason: Reason,
        sink: &mut T,
    ) -> Result<(), WriteFault>
        ensures { PutsText (T.state sink.old)
            (if self.now.options.refusals then refusal_line at len reason else []) result
            (T.state sink.new) }
    {
        if self.options.refusals {
            put_refusal(sink, at, len, reason)
        } else {
            Ok(())
        }
    }

    /// Reports an item, where not all are counted alone.
    #[inline(always)]
    fn report_item<T: Sink, G: Glass, L: Ledger>(
        &mut self,
        item: &Item,
        sink: &mut T,
        glass: &mut G,
        steps: &mut Steps<L>,
    ) -> Result<(), WriteFault>
        requires valid { IsValidSaid item.now.what }
        requires loud { is_quiet self.old.options.way ≡ false }
        requires few { self.old.items + 1 < 2 ^ 54 }
        ensures { ReportsOn self.old (item.now ∷ [])
            (output_of (T.state sink.old) (G.state glass.old)) result self.new
            (output_of (T.state sink.new) (G.state glass.new)) }
    {
        self.items += 1;
        match &item.what {
            Said::Command(command) => self.apply(item, command, sink, glass, steps),
            Said::Refused(reason) => {
                self.refused += 1;
                self.name_refusal(item, *reason, sink)
            }
        }
    }

    /// Counts an item, and names it where it is refused and that is asked for.
    #[inline(always)]
    fn count_item<T: Sink>(&mut self, item: &Item, sink: &mut T) -> Result<(), WriteFault>
        requires quiet { is_quiet self.old.options.way ≡ true }
        requires few { self.old.items + 1 < 2 ^ 54 }
        ensures { (glass : GlassState) → ReportsOn self.old (item.now ∷ [])
            (output_of (T.state sink.old) glass) result self.new (output_of (T.state sink.new) glass) }
    {
        self.items += 1;
        match &item.what {
            Said::Command(_) => Ok(()),
            Said::Refused(reason) => {
                self.refused += 1;
                self.name_alone(item.at, item.len, *reason, sink)
            }
        }
    }

    /// The same of items one after the other.
    // A loop of its own, which asks once what is done with items, and hands none on.
    #[inline(always)]
    fn count_items<T: Sink>(&mut self, items: &[Item], sink: &mut T) -> Result<(), WriteFault>
        requires quiet { is_quiet self.old.options.way ≡ true }
        requires few { self.old.items + length items.now < 2 ^ 54 }
        ensures { (glass : GlassState) → ReportsOn self.old items.now
            (output_of (T.state sink.old) glass) result self.new (output_of (T.state sink.new) glass) }
    {
        for item in items {
            self.count_item(item, sink)?;
        }
        Ok(())
    }

    /// Reports items one after the other.
    // In place, since it is called for each byte and most often has one item.
    #[inline(always)]
    pub fn report_items<T: Sink, G: Glass, L: Ledger>(
        &mut self,
        items: &[Item],
        sink: &mut T,
        glass: &mut G,
        steps: &mut Steps<L>,
    ) -> Result<(), WriteFault>
        requires valid { AllByRecursion (λ i. IsValidSaid i.what) items.now }
        requires few { self.old.items + length items.now < 2 ^ 54 }
        ensures { ReportsOn self.old items.now
            (output_of (T.state sink.old) (G.state glass.old)) result self.new
            (output_of (T.state sink.new) (G.state glass.new)) }
    {
        if self.options.way.is_quiet() {
            return self.count_items(items, sink);
        }
        for item in items {
            self.report_item(item, sink, glass, steps)?;
        }
        Ok(())
    }

    /// Makes the edits of the script or draws the drawing, if there is one.
    pub fn make_edits<T: Sink, G: Glass, L: Ledger>(
        &mut self,
        sink: &mut T,
        glass: &mut G,
        steps: &mut Steps<L>,
    ) -> Result<(), WriteFault>
        ensures { EditsOn self.old (output_of (T.state sink.old) (G.state glass.old)) result
            self.new (output_of (T.state sink.new) (G.state glass.new)) }
    {
        let listed = self.options.edits_listed;
        match &mut self.target {
            Target::Nothing => Ok(()),
            Target::Screen(_) => Ok(()),
            Target::Editor(editor, script) => {
                make_lines(editor, script, listed, &mut self.marks, sink, glass, steps)
            }
            Target::Drawing(screen, drawing) => {
                draw(screen, drawing, &mut self.marks, glass, steps);
                Ok(())
            }
        }
    }

    /// Puts the text at the end of a page of so many bytes, whose commands were painted.
    fn put_painted<T: Sink, G: Glass>(
        &self,
        screen: &Screen,
        bytes: u64,
        blink: &mut Option<Blink>,
        sink: &mut T,
        glass: &G,
    ) -> Result<(), WriteFault>
        ensures { (plan : Plan) (page : List ℕ)
            → StandsAtEnd plan self.now (closed_items page)
            → HasBlink plan.options.end blink.old
            → screen.now ≡ state (remaining_at_end plan (closed_items page))
            → bytes ≡ length page
            → PutsText (T.state sink.old) (painted_end plan.options.end plan.options
            (G.state glass.now).grid page (remaining_at_end plan (closed_items page)))
            result (T.state sink.new) }
    {
        match self.options.end {
            End::Nothing => Ok(()),
            End::Screen => put_screen(sink, glass, screen.rows()),
            End::Cells => put_cells(sink, glass, screen.rows()),
            End::Page => write_page(screen, sink),
            End::Counts => put_load(sink, bytes, self.items, self.painted),
            End::Phases(turns) => match blink {
                Some(blink) => put_phases(sink, screen, turns, blink),
                // Where phases are put there is one.
                None => Ok(()),
            },
        }
    }

    /// Puts how many items there were and were refused, where they were counted alone.
    fn put_counts<T: Sink>(&self, sink: &mut T) -> Result<(), WriteFault>
        ensures { PutsText (T.state sink.old)
            (counts_text self.now.options.way self.now.items self.now.refused) result
            (T.state sink.new) }
    {
        match self.options.way {
            Way::Count => put_check(sink, self.items, self.refused),
            _ => Ok(()),
        }
    }

    /// Puts the text at the end of a page of so many bytes.
    pub fn put_end<T: Sink, G: Glass>(
        &self,
        bytes: u64,
        blink: &mut Option<Blink>,
        sink: &mut T,
        glass: &G,
    ) -> Result<(), WriteFault>
        ensures { (plan : Plan) (page : List ℕ)
            → StandsAtEnd plan self.now (closed_items page)
            → HasBlink plan.options.end blink.old → bytes ≡ length page
            → PutsText (T.state sink.old) (end_text plan.options (G.state glass.now).grid page
            (remaining_at_end plan (closed_items page))) result (T.state sink.new) }
    {
        match self.target.screen() {
            None => self.put_counts(sink),
            Some(screen) => self.put_painted(screen, bytes, blink, sink, glass),
        }
    }

    /// Whether an item was refused.
    pub fn has_refusal(&self) -> bool
        ensures { result ≡ nat_lt 0 self.now.refused }
    {
        self.refused > 0
    }
}
