ghost use Rattle.std.specs.Prelude.{◌≡◌, ℕ, ◌+◌, ◌-◌, ◌<◌, ◌≤◌, ◌⊎◌, true, false, not, List};
ghost use Rattle.std.specs.Prelude.{◌||◌, if◌then◌else◌};
ghost use Rattle.std.specs.Prelude.{length, slice_index_or, slice_set};
ghost use Rattle.cept_codes.specs.declared.look.Look.{Look};
ghost use Rattle.cept_codes.specs.Look.{IsValidLook, blank_look};
ghost use Rattle.cept_codes.specs.Place.{IsColumn};
ghost use Rattle.cept_codes.specs.Same.{same_look};
ghost use Rattle.cept_codes.specs.Table.{entry, list_by_index, row_of};
ghost use Rattle.cept_profile.specs.Look.{part_of};
ghost use Rattle.cept_profile.specs.Names.{pattern_shown, some_place};
ghost use Rattle.cept_profile.specs.RowsFromAbove.{blank_looks, is_other_covering};
ghost use Rattle.cept_profile.specs.Tiling.{column_entry, covers_below, covers_right};
ghost use Rattle.cept_codes.specs.Attribute.{unset_pen};
ghost use Rattle.cept_rows.specs.inside.Brush.{IsBrush, space_by};
ghost use Rattle.cept_rows.specs.inside.Compared.{AreDifferences, IsSameBeside, one_covers};
ghost use Rattle.cept_rows.specs.Flagged.{look_after, look_at};
ghost use Rattle.cept_rows.specs.inside.Flagged.{IsReplaced, IsResolvedTo};
ghost use Rattle.cept_rows.specs.Flagged.{looks_differ};
ghost use Rattle.cept_rows.specs.inside.Flagged.{with_look};
ghost use Rattle.cept_rows.specs.inside.KeptRows.{HasNoPatterns};
ghost use Rattle.cept_rows.specs.inside.Places.{IsPlainLook, with_drawn};
ghost use Rattle.cept_rows.specs.Planes.{has_inks, has_planes};
ghost use Rattle.cept_rows.specs.SmallLooks.{IsSmallLook, has_pattern, look_kept};
ghost use Rattle.cept_rows.specs.inside.SmallLooks.{drawing_of};
ghost use Rattle.cept_rows.specs.SmallLooks.{blank_small, no_drawing, small_of};
ghost use Rattle.cept_rows.specs.Source.{look_by_itself};

use crate::cell_look::{
    Brush, is_downloaded, sign_alone, sign_in, small_alone, take_up, with_sign,
};
use crate::drawing::{Drawing, same_drawing};
use crate::small_look::{SmallLook, look_kept, same};
use crate::source::RowSource;
use cept_codes::{Column, Look, Pen, What};
use cept_outside::Steps;
use std::marker::Model;
use std::sync::ledger::Ledger;

/// The looks of a row, from the left. Without the flag `patterned` no look is a pattern, without
/// `tall` none covers the place below it.
// Patterns are rare and large: the drawings of a row that has none are never touched, since the
// drawing beside any other look counts for nothing.
#[derive(Drop)]
pub struct RowLooks {
    looks: [SmallLook; 40],
    drawn: [Drawing; 40],
    patterned: bool,
    tall: bool,
}

/// How two rows of looks differ: in which columns, whether in any, and whether one of the looks that
/// differ covers the place below it.
#[derive(Clone, Copy)]
pub struct Differences {
    pub columns: [bool; 40],
    pub any: bool,
    pub covering: bool,
}

impl Model for RowLooks {
    ghost use Rattle.std.specs.Prelude.{List};
    ghost use Rattle.cept_codes.specs.declared.look.Look.{Look};
    ghost use Rattle.cept_rows.specs.KeptRows.{IsKeptRow, looks_kept};

    ghost Value = { List Look };

    ghost view = { looks_kept };

    ghost invariant = { IsKeptRow };
}

impl RowLooks {
    /// Forty blank looks.
    pub fn flat() -> RowLooks
        ensures { result ≡ blank_looks }
    {
        RowLooks {
            looks: [SmallLook::BLANK; 40],
            drawn: [Drawing::NONE; 40],
            patterned: false,
            tall: false,
        }
    }

    /// The look in a column, 1 to 40.
    pub fn at(&self, column: u8) -> Look
        requires from_left { 1 ≤ column }
        requires to_right { column ≤ 40 }
        ensures look { result ≡ column_entry blank_look self.now column }
        ensures valid { IsValidLook result }
    {
        let k = column as usize - 1;
        look_kept(&self.looks[k], &self.drawn[k])
    }

    /// Tells the prover that there are forty looks: reading a field opens the model.
    #[inline(always)]
    pub fn columns_by_type(&self)
        ensures columns { length self.now ≡ 40 }
        ensures valid { (c : ℕ) → 1 ≤ c → c ≤ 40
            → IsValidLook (column_entry blank_look self.now c) }
    {
        let _looks = &self.looks;
    }

    /// Whether the look in a column covers the place below it.
    #[inline(always)]
    pub fn covers_below(&self, column: Column) -> bool
        ensures { result ≡ covers_below (part_of (column_entry blank_look self.now column)) }
    {
        let part = self.small(column).part;
        part.dy == 0 && part.h == 2
    }

    /// Whether the look in a column covers the place to its right, where nothing covers that from above.
    #[inline(always)]
    pub(crate) fn covers_right(&self, column: Column) -> bool
        ensures { result ≡ covers_right (part_of (look_at self.now column)) }
    {
        let part = self.small(column).part;
        part.dx == 0 && part.w == 2
    }

    /// Whether a pattern of so many planes is shown in the row.
    pub fn shows_planes(&self, planes: u8) -> bool
        ensures { result ≡ some_place (λ c. has_planes planes
            (pattern_shown (column_entry blank_look self.now c).shape)) }
    {
        if self.is_plain() {
            return false;
        }
        for number in 1..41u8 {
            let column = Column::numbered(number);
            if self.small(column).has_pattern() && self.drawing(column).pattern.planes == planes {
                return true;
            }
        }
        false
    }

    /// Flags besides the columns in which a pattern with inks is shown.
    pub fn flag_inked(&self, flags: &mut [bool; 40])
        ensures { flags.new ≡ list_by_index 1 40 (λ c. entry false 1 flags.old c
            || has_inks (pattern_shown (column_entry blank_look self.now c).shape)) }
    {
        if self.is_plain() {
            return;
        }
        for k in 0..40u8 {
            let at = usize::from(k);
            flags[at] = flags[at] | self.is_inked(Column::numbered(k + 1));
        }
    }

    /// Whether a pattern with inks is shown in a column.
    #[inline(always)]
    fn is_inked(&self, column: Column) -> bool
        ensures { result ≡ has_inks (pattern_shown (look_at self.now column).shape) }
    {
        self.small(column).has_pattern() && self.drawing(column).pattern.planes != 1
    }

    /// In which columns two rows have different looks, whether in any, and whether one of the looks
    /// that differ covers the place below it. To the left of a column they are known to be the same, and
    /// to the right of another.
    pub fn differences(&self, other: &RowLooks, from: Column, until: u8) -> Differences
        requires order { from ≤ until + 1 }
        requires to_right { until ≤ 40 }
        requires left { (c : ℕ) → 1 ≤ c → c < from
            → column_entry blank_look self.now c ≡ column_entry blank_look other.now c }
        requires right { (c : ℕ) → until < c → c ≤ 40
            → column_entry blank_look self.now c ≡ column_entry blank_look other.now c }
        ensures columns { result.columns ≡ list_by_index 1 40 (looks_differ self.now other.now) }
        ensures any { result.any ≡ some_place (looks_differ self.now other.now) }
        ensures covering { result.covering ≡ some_place (λ c. is_other_covering
            (column_entry blank_look self.now c) (column_entry blank_look other.now c)) }
        ensures same { result.any ≡ false → self.now ≡ other.now }
    {
        self.columns_by_type();
        other.columns_by_type();
        if self.is_plain() || other.is_plain() {
            self.compare(other, from, until, true)
        } else {
            self.compare_drawn(other, from, until)
        }
    }

    /// The same, where it is known whether one of the rows has no pattern.
    // Flags are set in a branch: without one the loop would be made into vectors, a field of a look
    // at a time, and take twice as long.
    #[inline(always)]
    fn compare(&self, other: &RowLooks, from: Column, until: u8, plain: bool) -> Differences
        requires beside { IsSameBeside self.now other.now from until }
        requires plain { plain ≡ true → HasNoPatterns self.now ⊎ HasNoPatterns other.now }
        ensures { AreDifferences self.now other.now result }
    {
        let mut columns = [false; 40];
        let mut any = false;
        let mut covering = false;
        for number in from.number()..until + 1 {
            let column = Column::numbered(number);
            if !self.same_at(other, column, plain) {
                columns[column.index()] = true;
                any = true;
                covering = self.covers_besides(other, column, covering);
            }
        }
        Differences {
            columns,
            any,
            covering,
        }
    }

    /// The same of any rows.
    // A call of its own: rows without patterns need less.
    #[inline(never)]
    fn compare_drawn(&self, other: &RowLooks, from: Column, until: u8) -> Differences
        requires { IsSameBeside self.now other.now from until }
        ensures { AreDifferences self.now other.now result }
    {
        self.compare(other, from, until, false)
    }

    /// Whether it is known that a look covers the place below it, or the look in a column of one of
    /// two rows does.
    #[inline(always)]
    fn covers_besides(&self, other: &RowLooks, column: Column, known: bool) -> bool
        ensures { result ≡ (known || one_covers self.now other.now column) }
    {
        if self.covers_nothing() & other.covers_nothing() {
            return known;
        }
        if self.covers_below(column) | other.covers_below(column) {
            return true;
        }
        known
    }

    /// Takes over the look in a column of another row.
    #[inline(always)]
    pub fn copy_at(&mut self, column: Column, from: &RowLooks)
        ensures { self.new
            ≡ slice_set self.old (column - 1) (column_entry blank_look from.now column) }
    {
        if from.patterned {
            self.copy_drawn(column, from);
        } else {
            let k = column.index();
            self.looks[k] = from.looks[k];
            self.tall = self.tall | from.tall;
        }
    }

    /// The same from a row in which a look may be a pattern.
    // A call of its own: looks without one need less.
    #[inline(never)]
    fn copy_drawn(&mut self, column: Column, from: &RowLooks)
        ensures { self.new ≡ with_look self.old column (look_at from.now column) }
    {
        let look = from.small(column);
        if look.has_pattern() {
            self.put_drawn(column, look, from.drawing(column));
        } else {
            self.put(column, look);
        }
    }

    /// Takes over the looks of the flagged columns of another row.
    pub fn copy_flagged(&mut self, flags: &[bool], from: &RowLooks)
        requires { length flags.now ≡ 40 }
        ensures { self.new ≡ row_of (λ c. if entry false 1 flags.now c
            then column_entry blank_look from.now c else column_entry blank_look self.old c) }
    {
        if from.patterned {
            self.copy_flagged_drawn(flags, from);
        } else {
            copy_small(&mut self.looks, flags, &from.looks);
            self.tall = self.tall | from.tall;
        }
    }

    /// The same from a row in which a look may be a pattern.
    // A call of its own: looks without one need less.
    #[inline(never)]
    fn copy_flagged_drawn(&mut self, flags: &[bool], from: &RowLooks)
        requires { length flags.now ≡ 40 }
        ensures { self.new ≡ row_of (look_after flags.now (look_at from.now) self.old) }
    {
        self.columns_by_type();
        for k in 0..40u8 {
            if flags[usize::from(k)] {
                self.copy_drawn(Column::numbered(k + 1), from);
            }
        }
    }

    /// Takes over all looks of another row.
    pub fn copy_from(&mut self, other: &RowLooks)
        ensures { self.new ≡ other.now }
    {
        self.looks = other.looks;
        self.patterned = other.patterned;
        self.tall = other.tall;
        if other.patterned {
            self.drawn = other.drawn;
        }
    }

    /// Resolves one cell by itself, in a row without markers, and keeps its look. Answers whether
    /// it differs from the one before. One tick.
    pub fn resolve_alone<L: Ledger>(
        &mut self,
        column: Column,
        source: &RowSource,
        steps: &mut Steps<L>,
    ) -> bool
        ensures looks { self.new
            ≡ slice_set self.old (column - 1) (look_by_itself source.now column) }
        ensures differs { result
            ≡ not (same_look (column_entry blank_look self.old column)
            (look_by_itself source.now column)) }
        ensures columns { length self.old ≡ 40 }
        ensures tick { steps.new ≡ steps.old + 1 }
    {
        steps.tick();
        self.columns_by_type();
        let what = source.what(column);
        if is_downloaded(what) {
            return self.resolve_downloaded(column, &source.here());
        }
        source.valid_by_type();
        let fresh = small_alone(column, sign_alone(what), source);
        self.replace(column, &fresh)
    }

    /// Resolves the cells of the flagged columns, each by itself, in a row without markers, and keeps
    /// their looks. Answers for each column whether its look differs from the one before. One tick.
    pub fn resolve_columns<L: Ledger>(
        &mut self,
        flags: &[bool; 40],
        source: &RowSource,
        steps: &mut Steps<L>,
    ) -> [bool; 40]
        ensures looks { self.new ≡ row_of (look_after flags.now (look_by_itself source.now) self.old) }
        ensures differ { result ≡ list_by_index 1 40 (looks_differ self.old self.new) }
        ensures tick { steps.new ≡ steps.old + 1 }
    {
        steps.tick();
        self.columns_by_type();
        let mut brush = Brush::new(&source.attributes(&Pen::UNSET), source);
        let blank = brush.space;
        let mut differ = [false; 40];
        for group in 0..5u8 {
            let first = 8 * group;
            if has_flag(flags, first) {
                self.resolve_eight(first, flags, &blank, &mut brush, source, &mut differ);
            }
        }
        differ
    }

    /// Resolves the flagged ones of the eight columns after so many, in a row without markers, and
    /// says for each whether its look differs from the one before.
    #[inline(always)]
    fn resolve_eight(
        &mut self,
        first: u8,
        flags: &[bool; 40],
        blank: &SmallLook,
        brush: &mut Brush,
        source: &RowSource,
        differ: &mut [bool; 40],
    )
        requires within { first ≤ 32 }
        requires blank { blank.now ≡ space_by source.now unset_pen }
        requires brush { IsBrush source.now brush.old }
        ensures columns { (was : List Look)
            → IsResolvedTo flags.now (look_by_itself source.now) was self.old differ.old first
            → IsResolvedTo flags.now (look_by_itself source.now) was self.new differ.new
            (first + 8) }
        ensures brush { IsBrush source.now brush.new }
    {
        for k in first..first + 8 {
            let at = usize::from(k);
            if flags[at] {
                differ[at] = self.resolve_among(Column::numbered(k + 1), blank, brush, source);
            }
        }
    }

    /// Resolves one cell by itself, in a row without markers, and keeps its look. Of a sign with a pen
    /// the brush takes that up. Answers whether the look differs from the one before.
    #[inline(always)]
    fn resolve_among(
        &mut self,
        column: Column,
        blank: &SmallLook,
        brush: &mut Brush,
        source: &RowSource,
    ) -> bool
        requires blank { blank.now ≡ space_by source.now unset_pen }
        requires brush { IsBrush source.now brush.old }
        ensures look { IsReplaced self.old column (look_by_itself source.now column) self.new
            result }
        ensures brush { IsBrush source.now brush.new }
    {
        let what = source.what(column);
        if is_downloaded(what) {
            return self.resolve_downloaded(column, source);
        }
        source.valid_by_type();
        match what {
            What::Blank | What::Marker(_) => self.replace(column, blank),
            What::Serial(glyph) => self.replace(column, &with_sign(blank, glyph)),
            What::Parallel(glyph, pen) => {
                take_up(brush, pen, source);
                self.replace(column, &with_sign(&brush.space, glyph))
            }
        }
    }

    /// Resolves one cell with a sign of the downloaded set by itself, in a row without markers, and keeps
    /// its look. Answers whether it differs from the one before.
    // A call of its own: a drawing has no room beside looks without one.
    #[inline(never)]
    fn resolve_downloaded(&mut self, column: Column, source: &RowSource) -> bool
        ensures { IsReplaced self.old column (look_by_itself source.now column) self.new result }
    {
        source.valid_by_type();
        let fresh = small_alone(column, sign_in(column, source), source);
        let drawing = source.drawing(column);
        let k = column.index();
        let differs = !same_with(&self.looks[k], &self.drawn[k], &fresh, &drawing);
        self.put_drawn(column, fresh, &drawing);
        differs
    }

    /// Keeps a look of single height without a pattern in a column, and answers whether it differs
    /// from the one before.
    // A call of its own: the look is then compared at once where it stands, and not field by field.
    #[inline(never)]
    fn replace(&mut self, column: Column, look: &SmallLook) -> bool
        requires look { IsPlainLook look.now }
        requires low { covers_below look.now.part ≡ false }
        ensures { IsReplaced self.old column (look_kept look.now no_drawing) self.new result }
    {
        let differs = !same(&self.small(column), look);
        self.put_single(column, *look);
        differs
    }

    /// Whether no look is known to cover the place below it.
    #[inline(always)]
    pub fn covers_nothing(&self) -> bool
        ensures { result ≡ true → (c : ℕ)
            → covers_below (part_of (column_entry blank_look self.now c)) ≡ false }
    {
        !self.tall
    }

    /// Whether no look is known to be a pattern.
    #[inline(always)]
    fn is_plain(&self) -> bool
        ensures { result ≡ true → HasNoPatterns self.now }
    {
        !self.patterned
    }

    /// Whether two rows have the same look in a column, where it is known whether one of them has no
    /// pattern.
    #[inline(always)]
    fn same_at(&self, other: &RowLooks, column: Column, plain: bool) -> bool
        requires { plain ≡ true → HasNoPatterns self.now ⊎ HasNoPatterns other.now }
        ensures { result ≡ same_look (look_at self.now column) (look_at other.now column) }
    {
        if plain {
            let mine = self.small(column);
            let theirs = other.small(column);
            return same(&mine, &theirs);
        }
        let k = column.index();
        same_with(
            &self.looks[k],
            &self.drawn[k],
            &other.looks[k],
            &other.drawn[k],
        )
    }

    /// The look in a column, as it is kept.
    #[inline(always)]
    pub(crate) fn small(&self, column: Column) -> SmallLook
        ensures look { result ≡ small_of (look_at self.now column) }
        ensures valid { IsValidLook (look_at self.now column) }
        ensures columns { length self.now ≡ 40 }
        ensures in_range { IsColumn column }
    {
        self.looks[column.index()]
    }

    /// The drawing of a pattern in a column.
    #[inline(always)]
    pub(crate) fn drawing(&self, column: Column) -> &Drawing
        requires { has_pattern (small_of (look_at self.now column)) ≡ true }
        ensures { result.now ≡ drawing_of (look_at self.now column).shape }
    {
        &self.drawn[column.index()]
    }

    /// Keeps a look of single height without a pattern in a column.
    #[inline(always)]
    pub(crate) fn put_single(&mut self, column: Column, look: SmallLook)
        requires look { IsPlainLook look }
        requires low { covers_below look.part ≡ false }
        ensures { self.new ≡ with_drawn self.old column look no_drawing }
    {
        self.looks[column.index()] = look;
    }

    /// Keeps a look without a pattern in a column.
    #[inline(always)]
    pub(crate) fn put(&mut self, column: Column, look: SmallLook)
        requires { IsPlainLook look }
        ensures { self.new ≡ with_drawn self.old column look no_drawing }
    {
        self.looks[column.index()] = look;
        self.tall = self.tall | (look.part.h == 2);
    }

    /// Keeps a look in a column with its drawing.
    pub(crate) fn put_drawn(&mut self, column: Column, look: SmallLook, drawing: &Drawing)
        requires { IsSmallLook look drawing.now }
        ensures { self.new ≡ with_drawn self.old column look drawing.now }
    {
        let k = column.index();
        self.looks[k] = look;
        self.drawn[k] = *drawing;
        self.patterned = self.patterned | look.has_pattern();
        self.tall = self.tall | (look.part.h == 2);
    }

    /// Makes a row in which a look may be a pattern, or may cover the place below it, one in which
    /// none is and none does. It keeps no look that it had.
    #[inline(always)]
    pub(crate) fn clear(&mut self)
        ensures columns { length self.new ≡ 40 }
        ensures plain { HasNoPatterns self.new }
        ensures low { (c : ℕ) → covers_below (part_of (look_at self.new c)) ≡ false }
    {
        if self.patterned | self.tall {
            self.looks = [SmallLook::BLANK; 40];
            self.patterned = false;
            self.tall = false;
        }
    }
}

/// Whether one of the eight columns after so many is flagged.
// Without an end before the last one, so that all are asked at once.
#[inline(always)]
fn has_flag(flags: &[bool; 40], first: u8) -> bool
    requires { first ≤ 32 }
    ensures { result ≡ false → (k : ℕ) → first ≤ k → k < first + 8
        → slice_index_or flags.now k false ≡ false }
{
    let mut found = false;
    for i in 0..8u8 {
        found = found | flags[usize::from(first + i)];
    }
    found
}

/// Whether two looks with their drawings are the same.
#[inline(always)]
fn same_with(a: &SmallLook, a_drawn: &Drawing, b: &SmallLook, b_drawn: &Drawing) -> bool
    requires a { IsSmallLook a.now a_drawn.now }
    requires b { IsSmallLook b.now b_drawn.now }
    ensures { (l m : Look) → look_kept a.now a_drawn.now ≡ l → look_kept b.now b_drawn.now ≡ m
        → result ≡ same_look l m }
{
    same(a, b) && (!a.has_pattern() || same_drawing(a_drawn, b_drawn))
}

/// Takes over the flagged looks of a row.
#[inline(always)]
fn copy_small(looks: &mut [SmallLook; 40], flags: &[bool], from: &[SmallLook; 40])
    requires { length flags.now ≡ 40 }
    ensures columns { length looks.new ≡ 40 }
    ensures copied { (k : ℕ) → k < 40 → slice_index_or looks.new k blank_small
        ≡ (if slice_index_or flags.now k false then slice_index_or from.now k blank_small
        else slice_index_or looks.old k blank_small) }
{
    for k in 0..40usize {
        if flags[k] {
            looks[k] = from[k];
        }
    }
}
