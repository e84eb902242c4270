ghost use Rattle.std.specs.Prelude.{◌≡◌, ◌-◌, false, true, is_some};
ghost use Rattle.cept_codes.specs.declared.look.Shape.{Shape};
ghost use Rattle.cept_codes.specs.Attribute.{IsValidFull, IsValidPen};
ghost use Rattle.cept_codes.specs.Cell.{IsValidWhat};
ghost use Rattle.cept_codes.specs.Glyph.{IsValidGlyph};
ghost use Rattle.cept_codes.specs.declared.cell.What.TheVariants.{Marker as stands};
ghost use Rattle.cept_profile.specs.Serial.{held_sign, is_marker, row_in};
ghost use Rattle.cept_rows.specs.inside.Brush.{attributes_by, small_shape};
ghost use Rattle.cept_rows.specs.DrawnWith.{drawn_with};
ghost use Rattle.cept_rows.specs.inside.Places.{own_drawing};
ghost use Rattle.cept_rows.specs.inside.RowsByCell.{pattern_of_sign};
ghost use Rattle.cept_rows.specs.SmallLooks.{sign_of};
ghost use Rattle.cept_rows.specs.Source.{AreValidCells, IsValidSource};
ghost use Rattle.cept_rows.specs.inside.Walk.{IsCarried, serial_in};

use crate::colours::{back_of, fore_of};
use crate::drawing::{Drawing, drawing_of_glyph, pattern_of};
use crate::small_look::{Sign, SmallLook, Style};
use cept_attrs::{Influence, Marked, cascade};
use cept_codes::{Cell, Column, Full, Glyph, Marker, Pen, What};
use cept_colours::Colours;
use cept_drcs::Patterns;
use std::marker::Model;

/// What the looks of a row come from: its cells, its attributes and those of the screen, the colours
/// and the patterns, and whether it is last.
#[derive(Drop)]
pub struct RowSource<'p> {
    cells: &'p [Cell; 40],
    row_pen: &'p Pen,
    screen_pen: &'p Pen,
    colours: &'p Colours,
    patterns: &'p Patterns,
    last: bool,
}

impl<'p> Model for RowSource<'p> {
    ghost use Rattle.cept_rows.specs.DrawnWith.{drawn_with};
    ghost use Rattle.cept_rows.specs.Source.{IsValidSource, Source};

    ghost Value = { Source };

    ghost view = { λ s. record {
      cells = s.cells.now;
      row_pen = s.row_pen.now;
      screen_pen = s.screen_pen.now;
      defined = drawn_with s.colours.now s.patterns.now;
      last = s.last;
    } };

    ghost invariant = { λ s. IsValidSource (record {
      cells = s.cells.now;
      row_pen = s.row_pen.now;
      screen_pen = s.screen_pen.now;
      defined = drawn_with s.colours.now s.patterns.now;
      last = s.last;
    }) };
}

impl<'p> RowSource<'p> {
    /// Of a row that isn't last.
    #[inline(always)]
    pub fn new(
        cells: &'p [Cell; 40],
        row_pen: &'p Pen,
        screen_pen: &'p Pen,
        colours: &'p Colours,
        patterns: &'p Patterns,
    ) -> RowSource<'p>
        requires cells { AreValidCells cells.now }
        requires row_pen { IsValidPen row_pen.now }
        requires screen_pen { IsValidPen screen_pen.now }
        ensures { result
            ≡ record {
              cells = cells.now;
              row_pen = row_pen.now;
              screen_pen = screen_pen.now;
              defined = drawn_with colours.now patterns.now;
              last = false;
            } }
    {
        colours.valid_by_type();
        patterns.valid_by_type();
        RowSource {
            cells,
            row_pen,
            screen_pen,
            colours,
            patterns,
            last: false,
        }
    }

    /// The same of a row that is last, or isn't.
    #[inline(always)]
    pub fn ending(self, last: bool) -> RowSource<'p>
        ensures { result ≡ record self.entry { last = last } }
    {
        RowSource { last, ..self }
    }

    /// The same, made where it is called: what is handed to a call of its own has to stand in memory, and
    /// this one needn't then.
    #[inline(always)]
    pub(crate) fn here(&self) -> RowSource<'p>
        ensures { result ≡ self.now }
    {
        RowSource {
            cells: self.cells,
            row_pen: self.row_pen,
            screen_pen: self.screen_pen,
            colours: self.colours,
            patterns: self.patterns,
            last: self.last,
        }
    }

    /// Tells the prover that all of it is valid: reading a field opens the model.
    #[inline(always)]
    pub(crate) fn valid_by_type(&self)
        ensures { IsValidSource self.now }
    {
        let _cells = self.cells;
    }

    /// Whether the row is last.
    #[inline(always)]
    pub(crate) fn is_last(&self) -> bool
        ensures { result ≡ self.now.last }
    {
        self.last
    }

    /// The cells.
    #[inline(always)]
    pub(crate) fn cells(&self) -> &'p [Cell; 40]
        ensures { result.now ≡ self.now.cells }
    {
        self.cells
    }

    /// The attributes of the row.
    #[inline(always)]
    pub(crate) fn row_pen(&self) -> &'p Pen
        ensures { result.now ≡ self.now.row_pen }
    {
        self.row_pen
    }

    /// The attributes of the screen.
    #[inline(always)]
    pub(crate) fn screen_pen(&self) -> &'p Pen
        ensures { result.now ≡ self.now.screen_pen }
    {
        self.screen_pen
    }

    /// What stands in a column.
    #[inline(always)]
    pub(crate) fn what(&self, column: Column) -> &'p What
        ensures what { result.now ≡ row_in self.now.cells column }
        ensures valid { IsValidWhat result.now }
    {
        &self.cells[column.index()].what
    }

    /// The attributes of a sign that took a pen, in a row without markers.
    #[inline(always)]
    pub(crate) fn attributes(&self, pen: &Pen) -> Full
        requires { IsValidPen pen.now }
        ensures attributes { result ≡ attributes_by self.now pen.now }
        ensures valid { IsValidFull result }
    {
        cascade(pen, self.row_pen, self.screen_pen)
    }

    /// The look of a sign of single size with its attributes.
    #[inline(always)]
    pub(crate) fn small_with(&self, sign: Sign, full: &Full) -> SmallLook
        requires { IsValidFull full.now }
        ensures { (shape : Shape) → sign ≡ sign_of shape
            → result ≡ small_shape self.now shape full.now }
    {
        SmallLook {
            sign,
            fore: fore_of(full, self.colours),
            back: back_of(full, self.colours),
            style: Style {
                flash: full.flash,
                conceal: full.conceal,
                lined: full.lined,
                boxed: full.boxed,
            },
            ..SmallLook::BLANK
        }
    }

    /// Whether a sign has a pattern.
    // A call of its own: signs of other sets need less.
    #[inline(never)]
    pub(crate) fn has_pattern(&self, glyph: &Glyph) -> bool
        requires { IsValidGlyph glyph.now }
        ensures { result ≡ is_some (pattern_of_sign self.now.defined.patterns glyph.now) }
    {
        pattern_of(glyph, self.patterns).is_some()
    }

    /// The drawing of what stands in a column. A marker holds no sign of the downloaded set.
    pub(crate) fn drawing(&self, column: Column) -> Drawing
        ensures { result ≡ own_drawing self.now column }
    {
        match self.what(column) {
            What::Blank | What::Marker(_) => Drawing::NONE,
            What::Serial(glyph) | What::Parallel(glyph, _) => {
                drawing_of_glyph(glyph, self.colours, self.patterns)
            }
        }
    }

    /// Tells the prover that a cell without a marker leaves what the cells before it left.
    #[inline(always)]
    pub(crate) fn pass(&self, influence: &Influence, column: Column)
        requires plain { is_marker (row_in self.now.cells column) ≡ false }
        requires carried { IsCarried self.now (column - 1) influence.now }
        ensures carried { IsCarried self.now column influence.now }
        ensures full { influence.now.full ≡ serial_in self.now column }
    {
        influence.pass(self.cells(), column.number());
    }

    /// The cell of a marker. What is carried is then what it leaves.
    #[inline(always)]
    pub(crate) fn mark(&self, influence: &mut Influence, column: Column, marker: Marker) -> Marked
        requires there { row_in self.now.cells column ≡ stands marker }
        requires carried { IsCarried self.now (column - 1) influence.old }
        ensures carried { IsCarried self.now column influence.new }
        ensures at_once { result.at_once ≡ true → influence.new.full ≡ serial_in self.now column }
        ensures later { result.at_once ≡ false → influence.old.full ≡ serial_in self.now column }
        ensures held { result.held ≡ held_sign (row_in self.now.cells) column }
        ensures valid { IsValidFull influence.old.full → IsValidFull influence.new.full }
    {
        self.valid_by_type();
        influence.mark(self.cells(), column.number(), marker)
    }
}
