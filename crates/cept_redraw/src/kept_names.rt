ghost use Rattle.std.specs.Prelude.{◌≡◌, ◌≢◌, ◌≤◌, ◌<◌, ◌+◌, ◌-◌, ◌↔◌, ℕ, true, false, Some, length};
ghost use Rattle.cept_codes.specs.Look.{blank_look};
ghost use Rattle.cept_codes.specs.Place.{OnScreen, number};
ghost use Rattle.cept_profile.specs.Look.{looks_of, part_of};
ghost use Rattle.cept_profile.specs.RowsFromAbove.{looks_in};
ghost use Rattle.cept_profile.specs.State.{Core};
ghost use Rattle.cept_profile.specs.Tiling.{column_entry, covers_below};
ghost use Rattle.cept_profile.specs.Valid.{IsValidPage};
ghost use Rattle.cept_redraw.specs.Kept.{core_on};
ghost use Rattle.cept_redraw.specs.Marks.{is_marked};
ghost use Rattle.cept_redraw.specs.Named.{AreNamed};
ghost use Rattle.cept_redraw.specs.inside.Named.{AreAllKnown, AreJustRemembered, IsStill};
ghost use Rattle.cept_redraw.specs.Named.{is_known, row_named};
ghost use Rattle.cept_redraw.specs.inside.Named.{IsUnmarkedBelow};
ghost use Rattle.cept_rows.specs.KeptNames.{names_kept};

use crate::followed_rows::Followed;
use crate::kept_rows::KeptRows;
use crate::marks::Marks;
use crate::resolved_rows::name_row;
use cept_codes::{Column, Row};
use cept_page::Page;
use cept_rows::{RowLooks, RowNames};
use std::marker::Model;

/// What the rows of the screen name, and of which rows that is known: of a row that was written or
/// that looks otherwise it is forgotten, and found anew when it is asked for.
#[derive(Drop)]
pub struct KeptNames {
    above: RowNames,
    rows: [RowNames; 24],
    known: [bool; 24],
}

impl Model for KeptNames {
    ghost use Rattle.std.specs.Prelude.{◌≡◌, length};
    ghost use Rattle.cept_redraw.specs.Named.{NamesOfRows};

    ghost Value = { NamesOfRows };

    ghost view = { λ n. record { above = n.above; rows = n.rows; known = n.known } };

    ghost invariant = { λ n. (length n.rows ≡ 24) × (length n.known ≡ 24) };
}

impl KeptNames {
    /// Of no row it is known.
    pub(crate) fn new() -> KeptNames
        ensures { (k : Core) → AreNamed result k }
    {
        KeptNames {
            above: RowNames::blank(),
            rows: [RowNames::blank(); 24],
            known: [false; 24],
        }
    }

    /// What is kept as the names of a row, where it stands.
    pub(crate) fn row(&self, row: Row) -> &RowNames
        ensures { result.now ≡ row_named self.now row }
    {
        &self.rows[row.index()]
    }

    /// The same of the row above a row.
    fn above(&self, row: Row) -> &RowNames
        ensures { result.now ≡ row_named self.now (row - 1) }
    {
        match row.above() {
            Some(above) => self.row(above),
            None => &self.above,
        }
    }

    /// Finds what each row names of which it isn't known, from the top.
    pub(crate) fn find(&mut self, page: &Page, kept: &KeptRows)
        requires valid { IsValidPage page.now }
        ensures named { (k : Core) → kept.now ≡ looks_of (core_on k page.now)
            → AreNamed self.old (core_on k page.now) → AreNamed self.new (core_on k page.now) }
        ensures known { AreAllKnown self.new }
    {
        for number in 1..25u8 {
            let row = Row::numbered(number);
            if !self.known[row.index()] {
                self.name(row, page, kept.row(row));
            }
        }
    }

    /// Names a row with these looks. What the row below it names is forgotten, where what covers it
    /// doesn't name the same as before.
    fn name(&mut self, row: Row, page: &Page, looks: &RowLooks)
        requires valid { IsValidPage page.now }
        ensures named { (k : Core) → looks.now ≡ looks_in (looks_of (core_on k page.now)) row
            → AreNamed self.old (core_on k page.now) → AreNamed self.new (core_on k page.now) }
        ensures known { is_known self.new row ≡ true }
        ensures above { (r : ℕ) → 1 ≤ r → r < row → is_known self.new r ≡ is_known self.old r }
        ensures next { is_known self.new (row + 1) ≡ true → is_known self.old (row + 1) ≡ true }
        ensures below { (r : ℕ) → row + 1 < r → is_known self.new r ≡ is_known self.old r }
        ensures others { (r : ℕ) → r ≢ row → row_named self.new r ≡ row_named self.old r }
    {
        let at = row.index();
        let names = name_row(page, row, self.above(row), looks);
        let same = is_same_below(looks, &names, &self.rows[at]);
        self.rows[at] = names;
        self.known[at] = true;
        if at < 23 {
            self.known[at + 1] = self.known[at + 1] & same;
        }
    }

    /// Forgets what a row names.
    #[inline(always)]
    pub(crate) fn forget(&mut self, row: Row)
        ensures { AreJustRemembered self.old self.new (λ r. r ≢ row) }
    {
        self.known[row.index()] = false;
    }

    /// Forgets what a row names, and each row in which a place is marked.
    pub(crate) fn forget_marked(&mut self, row: Row, marks: &Marks)
        ensures { AreJustRemembered self.old self.new (λ r. (r ≢ row)
            × IsUnmarkedBelow marks.now 960 r) }
    {
        self.forget(row);
        let mut from = 0;
        while let Some(place) = marks.next_from(from) {
            self.forget(place.in_row());
            from = 40 * u16::from(place.row());
        }
    }

    /// Forgets what each row names that is flagged, that came of another one or in which a place is
    /// marked.
    pub(crate) fn forget_rows(&mut self, flags: &[bool; 24], rows: &[Followed; 24], marks: &Marks)
        requires flags { length flags.now ≡ 24 }
        requires rows { length rows.now ≡ 24 }
        ensures { AreJustRemembered self.old self.new (λ r. IsStill flags.now rows.now marks.now r) }
    {
        for number in 1..25u8 {
            let row = Row::numbered(number);
            let at = row.index();
            let stays = is_left(flags[at], rows[at].from, row, marks);
            self.known[at] = self.known[at] & stays;
        }
    }

    /// Forgets what all rows name.
    pub(crate) fn forget_all(&mut self)
        ensures { (k : Core) → AreNamed self.new k }
    {
        self.known = [false; 24];
    }
}

/// Whether two rows with these looks name the same wherever they cover the row below.
fn is_same_below(looks: &RowLooks, names: &RowNames, others: &RowNames) -> bool
    ensures { result ≡ true → (c : ℕ) → 1 ≤ c → c ≤ 40
        → covers_below (part_of (column_entry blank_look looks.now c)) ≡ true
        → names_kept names.now c ≡ names_kept others.now c }
{
    if looks.covers_nothing() || *names == *others {
        return true;
    }
    for number in 1..41u8 {
        let column = Column::numbered(number);
        if looks.covers_below(column) && !is_same_in(column, names, others) {
            return false;
        }
    }
    true
}

/// Whether two rows name the same in a column.
fn is_same_in(column: Column, names: &RowNames, others: &RowNames) -> bool
    ensures { result ≡ true → names_kept names.now column ≡ names_kept others.now column }
{
    let k = column.index();
    names.fore[k] == others.fore[k]
        && names.back[k] == others.back[k]
        && names.code[k] == others.code[k]
}

/// Whether a row isn't flagged, came of itself, and no place of it is marked.
fn is_left(flag: bool, from: Option<Row>, row: Row, marks: &Marks) -> bool
    ensures { (result ≡ true) ↔ ((flag ≡ false) × (from ≡ Some row)
        × ((c : ℕ) → OnScreen row c → is_marked marks.now (number row c) ≡ false)) }
{
    !flag && is_still(from, row) && !marks.has_row(row)
}

/// Whether a row came of itself.
fn is_still(from: Option<Row>, row: Row) -> bool
    ensures { (result ≡ true) ↔ (from ≡ Some row) }
{
    match from {
        Some(from) => from == row,
        None => false,
    }
}
