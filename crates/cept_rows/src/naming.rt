ghost use Rattle.std.specs.Prelude.{◌≡◌, ◌≢◌, ℕ, ◌-◌, ◌≤◌, ◌==◌, ◌||◌, [], false, is_some};
ghost use Rattle.std.specs.Prelude.{slice_index_or};
ghost use Rattle.cept_codes.specs.Cell.{IsValidWhat};
ghost use Rattle.cept_codes.specs.Place.{OnScreen};
ghost use Rattle.cept_codes.specs.Table.{entry, list_by_index};
ghost use Rattle.cept_profile.specs.Look.{looks_of};
ghost use Rattle.cept_profile.specs.Names.{code_named, is_code, names_at};
ghost use Rattle.cept_profile.specs.Names.{names_with, some_place};
ghost use Rattle.cept_profile.specs.NamesFromAbove.{default_names, names_by};
ghost use Rattle.cept_profile.specs.NamesFromAbove.{names_in_row};
ghost use Rattle.cept_profile.specs.PageParts.{row_pen_in};
ghost use Rattle.cept_profile.specs.RowsFromAbove.{looks_in};
ghost use Rattle.cept_profile.specs.Serial.{row_in};
ghost use Rattle.cept_profile.specs.State.{Core};
ghost use Rattle.cept_rows.specs.KeptNames.{code_kept, names_kept, names_made};
ghost use Rattle.cept_rows.specs.inside.KeptNames.{names_of_place};
ghost use Rattle.cept_rows.specs.KeptNames.{own_names};
ghost use Rattle.cept_rows.specs.Source.{AreValidCells};

use crate::cell_look::own_attributes;
use crate::row_looks::RowLooks;
use crate::source::RowSource;
use cept_attrs::{RowSerial, serial_cells};
use cept_codes::{Cell, Column, Full, Part, Pen, RowCells, SetId, What};

/// What the places of a row name, from the left: the colour entries of foreground and background,
/// 0 to 31, and the code of a sign of the downloaded set, or 0 where there is none.
#[derive(Clone, Copy, PartialEq, Eq)]
pub struct RowNames {
    pub fore: [u8; 40],
    pub back: [u8; 40],
    pub code: [u8; 40],
}

/// The same of one place.
#[derive(Clone, Copy)]
pub(crate) struct PlaceNames {
    pub(crate) fore: u8,
    pub(crate) back: u8,
    pub(crate) code: u8,
}

impl RowNames {
    /// What a row names in which nothing stands and that has no attribute: white on black in each
    /// column, and no sign of the downloaded set.
    pub fn blank() -> RowNames
        ensures { (c : ℕ) → 1 ≤ c → c ≤ 40 → names_kept result c ≡ default_names }
    {
        RowNames {
            fore: [7; 40],
            back: [0; 40],
            code: [0; 40],
        }
    }

    /// Whether a place names this colour entry as its foreground or its background.
    // Without an end before the last one, as all searches here, so that several are asked at once.
    pub fn has_entry(&self, entry: u8) -> bool
        ensures { result
            ≡ some_place (λ c. (names_kept self.now c).fore == entry
            || (names_kept self.now c).back == entry) }
    {
        let mut found = false;
        for k in 0..40usize {
            found = found | ((self.fore[k] == entry) | (self.back[k] == entry));
        }
        found
    }

    /// Whether a place names this code of a pattern, 2/1 to 7/14.
    pub fn has_code(&self, code: u8) -> bool
        requires { 1 ≤ code }
        ensures { result ≡ some_place (λ c. is_code (names_kept self.now c).code code) }
    {
        let mut found = false;
        for k in 0..40usize {
            found = found | (self.code[k] == code);
        }
        found
    }

    /// Whether a place names a code of a pattern.
    pub fn has_some_code(&self) -> bool
        ensures { result ≡ some_place (λ c. is_some (names_kept self.now c).code) }
    {
        let mut found = false;
        for k in 0..40usize {
            found = found | (self.code[k] != 0);
        }
        found
    }

    /// Flags besides the columns in which this colour entry is named as foreground or background.
    pub fn flag_entry(&self, colour: u8, flags: &mut [bool; 40])
        ensures { flags.new ≡ list_by_index 1 40 (λ c. entry false 1 flags.old c
            || ((names_kept self.now c).fore == colour || (names_kept self.now c).back == colour)) }
    {
        for k in 0..40usize {
            flags[k] = flags[k] | ((self.fore[k] == colour) | (self.back[k] == colour));
        }
    }

    /// Flags besides the columns in which this code of a pattern is named, 2/1 to 7/14.
    pub fn flag_code(&self, code: u8, flags: &mut [bool; 40])
        requires code { 1 ≤ code }
        ensures { flags.new ≡ list_by_index 1 40 (λ c. entry false 1 flags.old c
            || is_code (names_kept self.now c).code code) }
    {
        for k in 0..40usize {
            flags[k] = flags[k] | (self.code[k] == code);
        }
    }

    /// Flags besides the columns in which a code of a pattern is named.
    pub fn flag_codes(&self, flags: &mut [bool; 40])
        ensures { flags.new ≡ list_by_index 1 40 (λ c. entry false 1 flags.old c
            || is_some (names_kept self.now c).code) }
    {
        for k in 0..40usize {
            flags[k] = flags[k] | (self.code[k] != 0);
        }
    }

    /// The names in a column.
    #[inline(always)]
    fn at(&self, column: Column) -> PlaceNames
        ensures { names_of_place result ≡ names_kept self.now column }
    {
        let k = column.index();
        PlaceNames {
            fore: self.fore[k],
            back: self.back[k],
            code: self.code[k],
        }
    }

    /// Keeps the names of a place in a column.
    #[inline(always)]
    fn put(&mut self, column: Column, place: PlaceNames)
        ensures here { names_kept self.new column ≡ names_of_place place }
        ensures others { (c : ℕ) → 1 ≤ c → c ≢ column
            → names_kept self.new c ≡ names_kept self.old c }
    {
        let k = column.index();
        self.fore[k] = place.fore;
        self.back[k] = place.back;
        self.code[k] = place.code;
    }
}

impl PlaceNames {
    /// What a place of such a row names.
    const BLANK: PlaceNames = PlaceNames {
        fore: 7,
        back: 0,
        code: 0,
    };
}

/// What the places of a row name, by its own cells and attributes, by the parts that its looks show
/// and by what the row above it names.
pub fn name_row(
    cells: &RowCells,
    row: &Pen,
    screen: &Pen,
    above: &RowNames,
    looks: &RowLooks,
) -> RowNames
    requires cells { AreValidCells cells.now.cells }
    ensures names { (c : ℕ) → 1 ≤ c → c ≤ 40
        → names_kept result c
        ≡ names_made above.now looks.now
        (names_in_row (row_in cells.now.cells) row.now screen.now) c }
    ensures beneath { (k : Core) (r c : ℕ) → OnScreen r c
        → cells.now.cells ≡ slice_index_or k.page.cells (r - 1) []
        → row.now ≡ row_pen_in k.page.row_pens r → screen.now ≡ k.page.screen_pen
        → looks.now ≡ looks_in (looks_of k) r
        → ((d : ℕ) → OnScreen (r - 1) d → names_kept above.now d ≡ names_at k (r - 1) d)
        → names_kept result c ≡ names_at k r c }
{
    let mut names = RowNames::blank();
    name_places(&cells.cells, row, screen, above, looks, &mut names);
    names
}

/// The same of a row by its source. The names take the place of those that were kept.
pub fn name_cells(source: &RowSource, above: &RowNames, looks: &RowLooks, names: &mut RowNames)
    ensures names { (c : ℕ) → 1 ≤ c → c ≤ 40
        → names_kept names.new c ≡ names_made above.now looks.now (own_names source.now) c }
{
    source.valid_by_type();
    name_places(
        source.cells(),
        source.row_pen(),
        source.screen_pen(),
        above,
        looks,
        names,
    );
}

/// The same of forty cells where they stand.
#[inline(always)]
fn name_places(
    cells: &[Cell; 40],
    row: &Pen,
    screen: &Pen,
    above: &RowNames,
    looks: &RowLooks,
    names: &mut RowNames,
)
    requires { AreValidCells cells.now }
    ensures { (c : ℕ) → 1 ≤ c → c ≤ 40
        → names_kept names.new c
        ≡ names_made above.now looks.now (names_in_row (row_in cells.now) row.now screen.now) c }
{
    let RowSerial { full, held: _ } = serial_cells(cells, row, screen);
    let mut left = PlaceNames::BLANK;
    for number in 1..41u8 {
        let column = Column::numbered(number);
        let k = number as usize - 1;
        let what = &cells[k].what;
        let own = names_with(&own_attributes(what, &full[k], row, screen), what);
        let place = names_by(looks.small(column).part, above.at(column), left, own);
        names.put(column, place);
        left = place;
    }
}

/// The names of a place by the part that it shows: those of the place above or left of it, or those
/// of what stands in its own cell.
#[inline(always)]
fn names_by(part: Part, above: PlaceNames, left: PlaceNames, own: PlaceNames) -> PlaceNames
    ensures { names_of_place result
        ≡ names_by part (names_of_place above) (names_of_place left) (names_of_place own) }
{
    if part.dy > 0 {
        above
    } else if part.dx > 0 {
        left
    } else {
        own
    }
}

/// The names of what stands in a cell with these attributes.
#[inline(always)]
fn names_with(full: &Full, what: &What) -> PlaceNames
    requires { IsValidWhat what.now }
    ensures { names_of_place result ≡ names_with full.now what.now }
{
    PlaceNames {
        fore: full.fore,
        back: full.back,
        code: code_named(what),
    }
}

/// The code of a sign of the downloaded set that stands in a cell, or 0.
#[inline(always)]
fn code_named(what: &What) -> u8
    requires { IsValidWhat what.now }
    ensures { code_kept result ≡ code_named what.now }
{
    match what {
        What::Serial(glyph) | What::Parallel(glyph, _) => match glyph.set {
            SetId::D => glyph.code,
            SetId::P | SetId::S | SetId::M | SetId::N => 0,
        },
        What::Blank | What::Marker(_) => 0,
    }
}
