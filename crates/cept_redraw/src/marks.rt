ghost use Rattle.std.specs.Prelude.{◌≡◌, ℕ, ◌≤◌, ◌<◌, ◌+◌, ◌*◌, ◌-◌, ◌||◌, Bool, true, false, length, slice_set};
ghost use Rattle.std.specs.Prelude.{take, drop, count_by, IsNone, IfSome, ◌↔◌};
ghost use Rattle.cept_codes.specs.Place.{number, OnScreen};
ghost use Rattle.cept_codes.specs.Table.{entry};
ghost use Rattle.cept_redraw.specs.Marks.{is_marked, no_marks, AreWithin, IsFirstFrom};
ghost use Rattle.cept_redraw.specs.inside.Marks.{HasFlags};

use cept_codes::{Pos, Row};
use std::marker::Model;

/// A set of places of the screen, in fixed memory. Beside the flags it keeps from which number on
/// and below which number places may be marked, so that one who has marked few looks through few.
#[derive(Drop)]
pub struct Marks {
    flags: [bool; 960],
    first: usize,
    end: usize,
}

impl Model for Marks {
    ghost use Rattle.std.specs.Prelude.{List, Bool};
    ghost use Rattle.cept_redraw.specs.Marks.{AreWithin};

    ghost Value = { List Bool };

    ghost view = { λ m. m.flags };

    ghost invariant = { λ m. AreWithin m.flags m.first m.end };
}

impl Marks {
    /// No place is marked.
    pub fn new() -> Marks
        ensures { result ≡ no_marks }
    {
        Marks {
            flags: [false; 960],
            first: 0,
            end: 0,
        }
    }

    /// Whether this place is marked.
    pub fn has(&self, at: Pos) -> bool
        ensures marked { result ≡ is_marked self.now (number at.row at.column) }
        ensures places { length self.now ≡ 960 }
    {
        self.flags[usize::from(at.number())]
    }

    /// How many places are marked, at most 960.
    pub fn len(&self) -> u16
        ensures count { result ≡ count_by (λ marked. marked) self.now }
        ensures places { length self.now ≡ 960 }
    {
        count_set(&self.flags[self.first..self.end])
    }

    /// The first marked place whose number is at least `from`. Places are numbered from 0 in
    /// reading order, rows from the top and columns from the left.
    pub fn next_from(&self, from: u16) -> Option<Pos>
        ensures none { IsNone result ↔ ((n : ℕ) → from ≤ n → is_marked self.now n ≡ false) }
        ensures first { IfSome result (IsFirstFrom self.now from) }
        ensures places { length self.now ≡ 960 }
    {
        let n = first_marked(&self.flags, self.first, self.end, usize::from(from))?;
        Pos::from_number(n as u16)
    }

    /// Whether no place can be marked.
    pub fn has_none(&self) -> bool
        ensures { result ≡ true → (n : ℕ) → is_marked self.now n ≡ false }
    {
        self.end == 0
    }

    /// The only marked place, where no other one can be.
    pub fn only(&self) -> Option<Pos>
        ensures first { IfSome result (IsFirstFrom self.now 0) }
        ensures last { IfSome result (λ p. (n : ℕ) → number p.row p.column < n
            → is_marked self.now n ≡ false) }
    {
        if self.first + 1 == self.end && self.flags[self.first] {
            Pos::from_number(self.first as u16)
        } else {
            None
        }
    }

    /// The next row from `from` on in which a place may be marked: none is before it.
    pub fn next_row(&self, from: u8) -> Option<Row>
        requires { 1 ≤ from }
        ensures none { IsNone result → (n : ℕ) → number from 1 ≤ n
            → is_marked self.now n ≡ false }
        ensures at_least { IfSome result (λ r. from ≤ r) }
        ensures before { IfSome result (λ r. (n : ℕ) → number from 1 ≤ n → n < number r 1
            → is_marked self.now n ≡ false) }
    {
        let first = (self.first / 40).max(usize::from(from) - 1);
        let end = (self.end + 39) / 40;
        for k in first..end {
            if has_one(&self.flags[40 * k..40 * k + 40]) {
                return Some(Row::numbered(k as u8 + 1));
            }
        }
        None
    }

    /// Whether a place of a row is marked.
    pub(crate) fn has_row(&self, row: Row) -> bool
        ensures none { result ≡ false → (c : ℕ) → OnScreen row c → is_marked self.now (number row c) ≡ false }
        ensures one { ((c : ℕ) → OnScreen row c → is_marked self.now (number row c) ≡ false) → result ≡ false }
    {
        let first = 40 * row.index();
        if self.end <= first || first + 40 <= self.first {
            return false;
        }
        has_one(&self.flags[first..first + 40])
    }

    /// The flags of a row, from the left.
    pub fn row_flags(&self, row: Row) -> &[bool]
        ensures flags { result.now ≡ take 40 (drop (number row 1) self.now) }
        ensures columns { length result.now ≡ 40 }
    {
        let first = 40 * row.index();
        &self.flags[first..first + 40]
    }

    /// Tells the prover that there are 960 flags: reading a field opens the model.
    pub(crate) fn places_by_type(&self)
        ensures { length self.now ≡ 960 }
    {
        let _flags = &self.flags;
    }

    /// Unmarks all places.
    pub fn clear(&mut self)
        ensures { self.new ≡ no_marks }
    {
        if self.end == 0 {
            return;
        }
        unmark_within(&mut self.flags, self.first, self.end);
        self.first = 0;
        self.end = 0;
    }

    /// Marks a place.
    pub fn mark(&mut self, at: Pos)
        ensures { self.new ≡ slice_set self.old (number at.row at.column) true }
    {
        let n = usize::from(at.number());
        self.flags[n] = true;
        if self.end == 0 {
            self.first = n;
            self.end = n + 1;
        } else {
            self.first = self.first.min(n);
            self.end = self.end.max(n + 1);
        }
    }

    /// Marks the places of a row that are flagged, from the left.
    pub(crate) fn mark_row(&mut self, row: Row, flags: &[bool; 40])
        requires columns { length flags.now ≡ 40 }
        ensures { HasFlags flags.now (number row 1) self.old self.new }
    {
        self.places_by_type();
        if !has_one(flags) {
            return;
        }
        let first = 40 * row.index();
        add_flags(&mut self.flags, first, flags);
        if self.end == 0 {
            self.first = first;
            self.end = first + 40;
        } else {
            self.first = self.first.min(first);
            self.end = self.end.max(first + 40);
        }
    }
}

/// Whether a flag of a row is set.
// Without an end before the last one, so that several are asked at once.
fn has_one(flags: &[bool]) -> bool
    requires { length flags.now ≡ 40 }
    ensures none { result ≡ false → (c : ℕ) → 1 ≤ c → c ≤ 40 → entry false 1 flags.now c ≡ false }
    ensures one { ((c : ℕ) → 1 ≤ c → c ≤ 40 → entry false 1 flags.now c ≡ false) → result ≡ false }
{
    let mut one = false;
    for i in 0..40usize {
        one = one | flags[i];
    }
    one
}

/// Sets the flags of a row besides, whose first place has this number.
// All are read before one is written, so that several are set at once.
fn add_flags(marks: &mut [bool; 960], first: usize, flags: &[bool; 40])
    requires places { length marks.old ≡ 960 }
    requires columns { length flags.now ≡ 40 }
    requires within { first + 40 ≤ 960 }
    ensures { HasFlags flags.now first marks.old marks.new }
{
    let row = with_flags(marks, first, flags);
    for i in 0..40usize {
        marks[first + i] = row[i];
    }
}

/// The flags of a row whose first place has this number, with those that are set besides.
#[inline(always)]
fn with_flags(marks: &[bool; 960], first: usize, flags: &[bool; 40]) -> [bool; 40]
    requires places { length marks.now ≡ 960 }
    requires columns { length flags.now ≡ 40 }
    requires within { first + 40 ≤ 960 }
    ensures columns { length result ≡ 40 }
    ensures flags { (i : ℕ) → i < 40 → is_marked result i
        ≡ (is_marked marks.now (first + i) || is_marked flags.now i) }
{
    let mut row = [false; 40];
    for i in 0..40usize {
        row[i] = marks[first + i] | flags[i];
    }
    row
}

/// How many of these flags are set.
fn count_set(flags: &[bool]) -> u16
    requires few { length flags.now ≤ 960 }
    ensures { result ≡ count_by (λ marked. marked) flags.now }
{
    flags.iter().filter(|marked| **marked).count() as u16
}

/// Unsets the flags from `first` on and below `end`, where no others are set. After most commands
/// there is one at most, which costs no call.
fn unmark_within(flags: &mut [bool; 960], first: usize, end: usize)
    requires within { AreWithin flags.old first end }
    requires places { length flags.old ≡ 960 }
    ensures { flags.new ≡ no_marks }
{
    if first + 1 == end {
        flags[first] = false;
    } else {
        unmark(&mut flags[first..end]);
    }
}

/// Unsets these flags.
fn unmark(flags: &mut [bool])
    ensures { (n : ℕ) → is_marked flags.new n ≡ false }
{
    for flag in flags.iter_mut() {
        *flag = false;
    }
}

/// The first set flag at `from` or after it, where none is set before `first`, at `end` or after
/// it.
fn first_marked(flags: &[bool], first: usize, end: usize, from: usize) -> Option<usize>
    requires within { AreWithin flags.now first end }
    requires places { length flags.now ≡ 960 }
    ensures none { IsNone result ↔ ((n : ℕ) → from ≤ n → is_marked flags.now n ≡ false) }
    ensures there { IfSome result (λ n. n < 960) }
    ensures at_least { IfSome result (λ n. from ≤ n) }
    ensures marked { IfSome result (λ n. is_marked flags.now n ≡ true) }
    ensures first { IfSome result (λ n. (k : ℕ) → from ≤ k → k < n
        → is_marked flags.now k ≡ false) }
{
    for n in first.max(from)..end {
        if flags[n] {
            return Some(n);
        }
    }
    None
}
