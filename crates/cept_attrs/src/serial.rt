ghost use Rattle.std.specs.Prelude.{◌≡◌, ℕ, ◌-◌, ◌≤◌, false, true, None};
ghost use Rattle.cept_attrs.specs.Walk.{AreHeld, AreInForce, IsInForceAt, IsInfluence, LeavesAt};
ghost use Rattle.cept_attrs.specs.Walk.{influence_with_sign};
ghost use Rattle.cept_codes.specs.declared.attribute.Pen.{Pen};
ghost use Rattle.cept_codes.specs.declared.cell.What.{What};
ghost use Rattle.cept_codes.specs.Attribute.{IsValidFull, unset_pen};
ghost use Rattle.cept_codes.specs.Cell.{IsValidMarker};
ghost use Rattle.cept_profile.specs.Attributes.{cascade};
ghost use Rattle.cept_codes.specs.declared.cell.What.TheVariants.{Marker as stands};
ghost use Rattle.cept_profile.specs.Influence.{influence_after, influence_in, held_sign_in};
ghost use Rattle.cept_profile.specs.Serial.{acts_there, held_sign, is_marker, mosaic_of, row_in};

use crate::attributes::cascade;
use cept_codes::{Cell, Flash, Full, Glyph, Marker, Pen, RowCells, SetId, Size, What};
use std::marker::Model;

/// The attributes in force in each cell of a row, and the signs that its markers show.
#[derive(Clone, Copy)]
pub struct RowSerial {
    pub full: [Full; 40],
    pub held: [Option<Glyph>; 40],
}

/// Whether the marker of a cell acts there, and the sign that it shows.
#[derive(Clone, Copy)]
pub struct Marked {
    pub at_once: bool,
    pub held: Option<Glyph>,
}

/// What the cells up to one leave for those after it.
#[derive(Clone, Copy)]
pub struct Influence {
    full: Full,
    hold: bool,
    kept: Option<Glyph>,
}

impl Model for Influence {
    ghost use Rattle.cept_profile.specs.Influence.{Influence as RowInfluence};

    ghost Value = { RowInfluence };

    ghost view = { λ s. record { full = s.full; hold = s.hold; kept_sign = s.kept } };

    ghost inverse = { λ s. record { full = s.full; hold = s.hold; kept = s.kept_sign } };
}

impl Influence {
    /// Before the first cell of a row.
    #[inline(always)]
    pub fn at_start(row: &Pen, screen: &Pen) -> Influence
        ensures full { result.full ≡ cascade unset_pen row.now screen.now }
        ensures influence { (cells : ℕ → What) → IsInfluence cells row.now screen.now 0 result }
    {
        Influence {
            full: cascade(&Pen::UNSET, row, screen),
            hold: false,
            kept: None,
        }
    }

    /// The attributes that the cells leave.
    #[inline(always)]
    pub fn full(&self) -> &Full
        ensures { result.now ≡ self.now.full }
    {
        &self.full
    }

    /// Tells the prover that a cell without a marker changes nothing: its sign is taken up only at
    /// a marker after it.
    #[inline(always)]
    pub fn pass(&self, cells: &[Cell; 40], column: u8)
        requires from_left { 1 ≤ column }
        requires plain { is_marker (row_in cells.now column) ≡ false }
        ensures influence { LeavesAt (row_in cells.now) column self.now self.now }
        ensures full { IsInForceAt (row_in cells.now) column self.now self.now.full }
        ensures held { held_sign (row_in cells.now) column ≡ None }
    {}

    /// The cell of a marker. What is carried is then what it leaves.
    #[inline(always)]
    pub fn mark(&mut self, cells: &[Cell; 40], column: u8, marker: Marker) -> Marked
        requires from_left { 1 ≤ column }
        requires to_right { column ≤ 40 }
        requires there { row_in cells.now column ≡ stands marker }
        ensures acts { result.at_once ≡ acts_there (stands marker) }
        ensures influence { LeavesAt (row_in cells.now) column self.old self.new }
        ensures at_once { result.at_once ≡ true
            → IsInForceAt (row_in cells.now) column self.old self.new.full }
        ensures later { result.at_once ≡ false
            → IsInForceAt (row_in cells.now) column self.old self.old.full }
        ensures held { (row screen : Pen)
            → IsInfluence (row_in cells.now) row screen (column - 1) self.old
            → result.held ≡ held_sign (row_in cells.now) column }
        ensures valid { IsValidMarker marker → IsValidFull self.old.full → IsValidFull self.new.full }
    {
        let k = column as usize - 1;
        settle(self, &cells[k.saturating_sub(1)].what);
        let mut held = None;
        let at_once = turn(self, marker, &mut held);
        Marked { at_once, held }
    }
}

/// The serial attributes of a row and its held signs (serial attributes after ETS 300 072).
pub fn serial_row(cells: &RowCells, row: &Pen, screen: &Pen) -> RowSerial
    ensures full { AreInForce (row_in cells.now.cells) row.now screen.now result.full }
    ensures held { AreHeld (row_in cells.now.cells) result.held }
{
    serial_cells(&cells.cells, row, screen)
}

/// The same of forty cells where they stand.
pub fn serial_cells(cells: &[Cell; 40], row: &Pen, screen: &Pen) -> RowSerial
    ensures full { AreInForce (row_in cells.now) row.now screen.now result.full }
    ensures held { AreHeld (row_in cells.now) result.held }
{
    let mut influence = Influence {
        full: cascade(&Pen::UNSET, row, screen),
        hold: false,
        kept: None,
    };
    let mut full = [influence.full; 40];
    let mut held = [None; 40];
    if !has_marker(cells) {
        return RowSerial { full, held };
    }
    for i in 0..40 {
        let what = &cells[i].what;
        match what {
            What::Marker(m) => {
                settle(&mut influence, &cells[i.saturating_sub(1)].what);
                mark(&mut influence, *m, &mut full[i], &mut held[i]);
            }
            _ => full[i] = influence.full,
        }
    }
    RowSerial { full, held }
}

/// Whether a marker stands in the row.
fn has_marker(cells: &[Cell; 40]) -> bool
    ensures { result ≡ false → (c : ℕ) → 1 ≤ c → c ≤ 40 → is_marker (row_in cells.now c) ≡ false }
{
    for cell in cells {
        if is_marker(&cell.what) {
            return true;
        }
    }
    false
}

/// Takes up the sign of the cell to the left, where it has no marker.
#[inline(always)]
fn settle(influence: &mut Influence, left: &What)
    ensures { influence.new ≡ influence_with_sign left.now influence.old }
{
    if !is_marker(left) {
        influence.kept = mosaic_of(left);
    }
}

/// Whether a marker stands there.
#[inline(always)]
fn is_marker(what: &What) -> bool
    ensures { result ≡ is_marker what.now }
{
    match what {
        What::Marker(_) => true,
        _ => false,
    }
}

/// A marker: what is in force in its cell, the sign that it shows, and what is carried after it.
#[inline(always)]
fn mark(influence: &mut Influence, m: Marker, full: &mut Full, held: &mut Option<Glyph>)
    ensures influence { influence.new ≡ influence_after (stands m) influence.old }
    ensures full { full.new ≡ (influence_in (stands m) influence.old).full }
    ensures held { held.new ≡ held_sign_in (stands m) influence.old }
{
    let before = influence.full;
    let at_once = turn(influence, m, held);
    *full = if at_once { influence.full } else { before };
}

/// The same but for what is in force: it answers whether the marker acts in its own cell.
#[inline(never)]
fn turn(influence: &mut Influence, m: Marker, held: &mut Option<Glyph>) -> bool
    ensures influence { influence.new ≡ influence_after (stands m) influence.old }
    ensures at_once { result ≡ acts_there (stands m) }
    ensures held { held.new ≡ held_sign_in (stands m) influence.old }
{
    let hold = influence.hold;
    carry(influence, m);
    let at_once = acts_at_once(m);
    let holds = if at_once { influence.hold } else { hold };
    *held = if holds { influence.kept } else { None };
    at_once
}

/// What a marker leaves.
#[inline(always)]
fn carry(influence: &mut Influence, m: Marker)
    ensures { influence.new ≡ influence_after (stands m) influence.old }
{
    match m {
        Marker::Alpha(e) | Marker::Mosaic(e) => influence.full.fore = e,
        Marker::BlackBack => influence.full.back = 0,
        Marker::NewBack => influence.full.back = influence.full.fore,
        Marker::Hold => influence.hold = true,
        Marker::Release => influence.hold = false,
        Marker::Flash(flash) => influence.full.flash = flash,
        Marker::Conceal(conceal) => influence.full.conceal = conceal,
        Marker::Lined(lined) => influence.full.lined = lined,
        Marker::Boxed(boxed) => influence.full.boxed = boxed,
        Marker::Size(size) => {
            influence.full.size = size;
            influence.kept = None;
        }
    }
}

/// Whether a marker acts in its own cell; all others act from the next.
#[inline(always)]
fn acts_at_once(m: Marker) -> bool
    ensures { result ≡ acts_there (stands m) }
{
    match m {
        Marker::Flash(flash) => matches!(flash, Flash::Steady),
        Marker::Size(size) => matches!(size, Size::Normal),
        Marker::Conceal(conceal) => conceal,
        Marker::BlackBack | Marker::NewBack | Marker::Hold => true,
        Marker::Alpha(_) | Marker::Mosaic(_) | Marker::Release => false,
        Marker::Lined(_) | Marker::Boxed(_) => false,
    }
}

/// The sign that markers after a cell may hold: one written serially from a mosaic set.
#[inline(always)]
fn mosaic_of(what: &What) -> Option<Glyph>
    ensures { result ≡ mosaic_of what.now }
{
    match what {
        What::Serial(glyph) => match glyph.set {
            SetId::M | SetId::N => Some(*glyph),
            _ => None,
        },
        _ => None,
    }
}
