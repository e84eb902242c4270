ghost use Rattle.std.specs.Prelude.{◌≡◌, ℕ, ◌<◌, ◌≤◌, ◌==◌, ◌&&◌, nat_le, nat_lt, true, false};
ghost use Rattle.cept_codes.specs.Cell.{IsValidWhat};
ghost use Rattle.cept_codes.specs.Glyph.{IsValidGlyph};
ghost use Rattle.cept_codes.specs.Place.{OnScreen};
ghost use Rattle.cept_plot.specs.Drawings.{points_after_all};
ghost use Rattle.cept_plot.specs.Figures.{IsValidFigure, is_in_rectangle, is_on_line, is_on_sides};
ghost use Rattle.cept_plot.specs.Figures.{points_after};
ghost use Rattle.cept_plot.specs.Lit.{is_lit, value_in};
ghost use Rattle.cept_plot.specs.inside.Lit.{IsSet};
ghost use Rattle.cept_plot.specs.Points.{OnField, is_in_field, value_in_core, value_of, value_of_code};
ghost use Rattle.cept_profile.specs.State.{core_of};

use crate::coordinate::{Coordinate, Slope, distance};
use crate::drawing::Drawing;
use crate::figure::{Figure, Point};
use cept_codes::{Glyph, Pos, SetId, What};
use cept_repaint::Screen;
use std::marker::Model;

/// A set of points, 80 across and 72 down, in fixed memory: for each cell of the screen in reading order the weights of
/// its points.
#[derive(Drop)]
pub struct Field {
    values: [u8; 960],
}

impl Model for Field {
    ghost use Rattle.std.specs.Prelude.{List, ℕ};
    ghost use Rattle.cept_plot.specs.Lit.{AreValues};

    ghost Value = { List ℕ };

    ghost view = { λ f. f.values };

    ghost invariant = { λ f. AreValues f.values };
}

impl Field {
    /// The points of a screen's block mosaics.
    pub fn of(screen: &Screen) -> Field
        ensures values { (r c : ℕ) → OnScreen r c
            → value_in result r c ≡ value_in_core (core_of screen.now) r c }
        ensures points { (x y : ℕ) → OnField x y
            → is_lit result x y ≡ is_in_field (core_of screen.now) x y }
    {
        let mut values = [0u8; 960];
        for n in 0..960u16 {
            let at = Pos::from_number(n).unwrap();
            values[usize::from(n)] = value_of(&screen.cell(at).what);
        }
        Field { values }
    }

    /// Whether a point is in the field: `x` 0 to 79 from the left, `y` 0 to 71 from the top.
    pub fn lit(&self, x: u8, y: u8) -> bool
        requires across { x < 80 }
        requires down { y < 72 }
        ensures lit { result ≡ is_lit self.now x y }
    {
        let cell = 40 * usize::from(y / 3) + usize::from(x / 2);
        (self.values[cell] >> (2 * (y % 3) + x % 2)) & 1 == 1
    }

    /// The value of a cell, 0 to 63.
    pub fn value(&self, at: Pos) -> u8
        ensures value { result ≡ value_in self.now at.row at.column }
        ensures valid { result < 64 }
    {
        self.values[usize::from(at.number())]
    }

    /// Adds the points of the figures of a drawing and takes them away, one figure after the other.
    pub fn draw(&mut self, drawing: &Drawing)
        ensures points { (x y : ℕ) → OnField x y
            → is_lit self.new x y ≡ points_after_all (is_lit self.old) drawing.now x y }
    {
        for figure in drawing.figures() {
            self.draw_figure(figure);
        }
    }

    /// Adds the points of a figure, or takes them away.
    pub fn draw_figure(&mut self, figure: &Figure)
        requires { IsValidFigure figure.now }
        ensures points { (x y : ℕ) → OnField x y
            → is_lit self.new x y ≡ points_after (is_lit self.old) figure.now x y }
    {
        match *figure {
            Figure::Plot(Point { x, y }) => self.set(x, y, true),
            Figure::Unplot(Point { x, y }) => self.set(x, y, false),
            Figure::Line(from, to) => self.add_line(from, to),
            Figure::Sides(a, b) => self.add_sides(a, b),
            Figure::Wipe(a, b) => self.wipe(a, b),
        }
    }

    /// Adds a point, or takes it away.
    #[inline(always)]
    fn set(&mut self, x: u8, y: u8, lit: bool)
        requires across { x < 80 }
        requires down { y < 72 }
        ensures { IsSet self.old self.new lit (λ px py. (px == x) && (py == y)) }
    {
        let cell = 40 * usize::from(y / 3) + usize::from(x / 2);
        let block = 2 * (y % 3) + x % 2;
        if lit {
            self.values[cell] = self.values[cell] | (1 << block);
        } else {
            self.values[cell] = self.values[cell] & !(1 << block);
        }
    }

    /// Adds the points of a row from one `x` on and before another, or takes them away.
    fn set_row(&mut self, y: u8, from: u8, end: u8, lit: bool)
        requires down { y < 72 }
        requires columns { from ≤ end }
        requires end { end ≤ 80 }
        ensures { IsSet self.old self.new lit
            (λ px py. (py == y) && (nat_le from px && nat_lt px end)) }
    {
        for x in from..end {
            self.set(x, y, lit);
        }
    }

    /// Adds the points of rows from one `y` on and before another, or takes them away.
    fn set_rows(&mut self, top: u8, bottom: u8, from: u8, end: u8, lit: bool)
        requires rows { top ≤ bottom }
        requires bottom { bottom ≤ 72 }
        requires columns { from ≤ end }
        requires end { end ≤ 80 }
        ensures { IsSet self.old self.new lit (λ px py. (nat_le top py && nat_lt py bottom)
            && (nat_le from px && nat_lt px end)) }
    {
        for y in top..bottom {
            self.set_row(y, from, end, lit);
        }
    }

    /// Adds the points of a line.
    fn add_line(&mut self, from: Point, to: Point)
        requires from { OnField from.x from.y }
        requires to { OnField to.x to.y }
        ensures { IsSet self.old self.new true (is_on_line from to) }
    {
        let steps = distance(from.x, to.x).max(distance(from.y, to.y));
        let across = Slope::new(from.x, to.x, steps);
        let down = Slope::new(from.y, to.y, steps);
        let mut x = Coordinate::start(from.x, steps);
        let mut y = Coordinate::start(from.y, steps);
        self.set(from.x, from.y, true);
        for _step in 0..steps {
            x = x.next(&across);
            y = y.next(&down);
            self.set(x.at, y.at, true);
        }
    }

    /// Adds the sides of a rectangle with these opposite corners.
    fn add_sides(&mut self, a: Point, b: Point)
        requires a { OnField a.x a.y }
        requires b { OnField b.x b.y }
        ensures { IsSet self.old self.new true (is_on_sides a b) }
    {
        let (left, right) = (a.x.min(b.x), a.x.max(b.x));
        let (top, bottom) = (a.y.min(b.y), a.y.max(b.y));
        self.set_row(top, left, right + 1, true);
        self.set_row(bottom, left, right + 1, true);
        self.set_rows(top, bottom + 1, left, left + 1, true);
        self.set_rows(top, bottom + 1, right, right + 1, true);
    }

    /// Takes away the points of a rectangle with these opposite corners.
    fn wipe(&mut self, a: Point, b: Point)
        requires a { OnField a.x a.y }
        requires b { OnField b.x b.y }
        ensures { IsSet self.old self.new false (is_in_rectangle a b) }
    {
        let (left, right) = (a.x.min(b.x), a.x.max(b.x));
        let (top, bottom) = (a.y.min(b.y), a.y.max(b.y));
        self.set_rows(top, bottom + 1, left, right + 1, false);
    }
}

/// The weights of the points of a cell's block mosaic, 0 of any other cell.
pub(crate) fn value_of(what: &What) -> u8
    requires { IsValidWhat what.now }
    ensures value { result ≡ value_of what.now }
    ensures valid { result < 64 }
{
    match what {
        What::Serial(glyph) => value_of_glyph(*glyph),
        What::Parallel(glyph, _) => value_of_glyph(*glyph),
        What::Blank | What::Marker(_) => 0,
    }
}

/// The weights of the points of a sign.
fn value_of_glyph(glyph: Glyph) -> u8
    requires { IsValidGlyph glyph }
    ensures value { result ≡ value_of_code glyph.set glyph.code }
    ensures valid { result < 64 }
{
    match (glyph.set, glyph.code) {
        (SetId::M, 0x20..=0x3F) => glyph.code - 0x20,
        (SetId::M, 0x60..=0x7F) => glyph.code - 0x40,
        _ => 0,
    }
}
