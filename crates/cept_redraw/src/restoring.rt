ghost use Rattle.std.specs.Prelude.{◌≡◌, ◌≤◌, ◌+◌, [], true, length};
ghost use Rattle.cept_codes.specs.Table.{list_by_index};
ghost use Rattle.cept_delta.specs.Exchanged.{page_exchanged};
ghost use Rattle.cept_delta.specs.Noted.{notes_screen};
ghost use Rattle.cept_profile.specs.Edges.{is_last};
ghost use Rattle.cept_profile.specs.Reach.{just_one};
ghost use Rattle.cept_redraw.specs.inside.Due.{at_rest};
ghost use Rattle.cept_redraw.specs.Named.{AreNamedOn};
ghost use Rattle.cept_redraw.specs.Picture.{IsRestored, MayBeRestored};
ghost use Rattle.cept_redraw.specs.inside.Picture.{AreOthersKept, IsRefreshedOn};
ghost use Rattle.cept_redraw.specs.Renewed.{rows_renewed};
ghost use Rattle.cept_redraw.specs.Restored.{is_unwound};

use crate::altered_rows::is_last_under_one;
use crate::marks::Marks;
use crate::picture::Picture;
use cept_codes::Row;
use cept_control::Edges;
use cept_delta::Delta;
use cept_outside::Steps;
use std::sync::ledger::Ledger;

impl Picture {
    /// Puts old values back on the page, resolves the rows that they may alter or that are covered
    /// otherwise than before and no others, and keeps all looks. Marks the places at which these
    /// differ from those before, and no others. The page has these edges before and those after.
    pub fn unwind<L: Ledger>(
        &mut self,
        delta: &Delta,
        before: &Edges,
        after: &Edges,
        marks: &mut Marks,
        steps: &mut Steps<L>,
    )
        requires { MayBeRestored delta.now before.now after.now self.old }
        ensures { IsRestored delta.now before.now after.now self.old self.new marks.new
            steps.old steps.new }
    {
        let rows = rows_unwound(delta, before, after);
        self.page.unwind(delta);
        self.refresh_unwound(&rows, after, marks, steps);
    }

    /// Exchanges old values with those of the page, and does the same otherwise.
    pub fn exchange<L: Ledger>(
        &mut self,
        delta: &mut Delta,
        before: &Edges,
        after: &Edges,
        marks: &mut Marks,
        steps: &mut Steps<L>,
    )
        requires { MayBeRestored delta.old before.now after.now self.old }
        ensures restored { IsRestored delta.old before.now after.now self.old self.new marks.new
            steps.old steps.new }
        ensures noted { delta.new ≡ page_exchanged self.old.page delta.old }
    {
        let rows = rows_unwound(delta, before, after);
        self.page.exchange(delta);
        self.refresh_unwound(&rows, after, marks, steps);
    }

    /// Resolves the flagged rows and those that are covered otherwise than before, and keeps all
    /// looks. Marks the places at which these differ from those before, and no others. What rows name
    /// is forgotten.
    fn refresh_unwound<L: Ledger>(
        &mut self,
        flags: &[bool; 24],
        edges: &Edges,
        marks: &mut Marks,
        steps: &mut Steps<L>,
    )
        requires flags { length flags.now ≡ 24 }
        requires others { AreOthersKept flags.now at_rest self.old.looks self.old.page edges.now }
        ensures page { self.new.page ≡ self.old.page }
        ensures refreshed { IsRefreshedOn flags.now at_rest self.old.looks edges.now self.new marks.new
            steps.old steps.new }
        ensures named { AreNamedOn self.new.names self.new.page edges.now }
        ensures least { steps.old + rows_renewed [] self.old.looks self.new.looks ≤ steps.new }
    {
        marks.clear();
        self.refresh_rows(flags, edges, marks, steps);
        self.names.forget_all();
    }
}

/// For each row from the top, whether it may look otherwise of itself after old values are put
/// back. The page has these edges before and those after.
fn rows_unwound(delta: &Delta, before: &Edges, after: &Edges) -> [bool; 24]
    ensures { result ≡ list_by_index 1 24 (is_unwound delta.now before.now after.now) }
{
    let screen = delta.notes_screen();
    let same = before.is_same(after);
    let mut rows = [false; 24];
    for i in 0..24u8 {
        rows[usize::from(i)] = is_unwound(delta, screen, before, after, same, Row::numbered(i + 1));
    }
    rows
}

/// Whether a row may, where it is known whether something is noted by which any row may look, and
/// perhaps that the edges are the same.
#[tactic(auto, unfolding(crate::specs::Restored::is_unwound))]
fn is_unwound(
    delta: &Delta,
    screen: bool,
    before: &Edges,
    after: &Edges,
    same: bool,
    row: Row,
) -> bool
    requires screen { screen ≡ notes_screen delta.now }
    requires same { same ≡ true → before.now ≡ after.now }
    ensures { result ≡ is_unwound delta.now before.now after.now row }
{
    let number = row.number();
    delta.notes_row(number) || screen || is_last_under_other(before, after, same, number)
}

/// Whether a row is last under just one of two edges, where it may be known that these are the same.
fn is_last_under_other(before: &Edges, after: &Edges, same: bool, row: u8) -> bool
    requires { same ≡ true → before.now ≡ after.now }
    ensures { result ≡ just_one (is_last before.now row) (is_last after.now row) }
{
    !same && is_last_under_one(before, row, after, row)
}
