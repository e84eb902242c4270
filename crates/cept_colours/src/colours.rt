ghost use Rattle.std.specs.Prelude.{◌≡◌, ◌<◌, ℕ};
ghost use Rattle.cept_codes.specs.Attribute.{IsEntry};
ghost use Rattle.cept_codes.specs.Look.{IsValidPaint};
ghost use Rattle.cept_profile.specs.PageParts.{dclut_in, dclut_list_after, paint_in, paints_after};
ghost use Rattle.cept_colours.specs.Colours.{default_colours};

use crate::defaults::default_paint;
use cept_codes::{Paint, Stroke};
use std::marker::Model;

/// The 32 colour entries, each with its paint, and the four entries of the DCLUT, each the number
/// of a colour entry.
#[derive(Clone, Copy, Debug)]
pub struct Colours {
    paints: [Paint; 32],
    dclut: [u8; 4],
}

impl Model for Colours {
    ghost use Rattle.cept_colours.specs.Colours.{ColourTables, HasValidColours};
    ghost use Rattle.cept_colours.specs.Fields.{tables_of, fields_of};

    ghost Value = { ColourTables };

    ghost view = { tables_of };

    ghost invariant = { λ c. HasValidColours (tables_of c) };

    ghost inverse = { fields_of };
}

impl Colours {
    /// The defaults: two tables of full colours and two of reduced ones, of which the entries 8 and
    /// 24 show what lies behind the screen. The DCLUT names the entries 0 to 3.
    pub fn new() -> Colours
        ensures { result ≡ default_colours }
    {
        let mut paints = [Paint::BLACK; 32];
        for i in 0..32u8 {
            paints[usize::from(i)] = default_paint(i);
        }
        Colours {
            paints,
            dclut: [0, 1, 2, 3],
        }
    }

    /// Gives an entry, 0 to 31, another paint.
    pub fn set(&mut self, i: u8, paint: Paint)
        requires entry { IsEntry i }
        requires valid { IsValidPaint paint }
        ensures paints { self.new.paints ≡ paints_after self.old.paints (Stroke.Colour i paint) }
        ensures dclut { self.new.dclut ≡ self.old.dclut }
    {
        self.paints[usize::from(i)] = paint;
    }

    /// The paint of an entry, 0 to 31.
    #[inline(always)]
    pub fn paint(&self, i: u8) -> Paint
        requires { IsEntry i }
        ensures paint { result ≡ paint_in self.now.paints i }
        ensures valid { IsValidPaint result }
    {
        self.paints[usize::from(i)]
    }

    /// Tells the prover that all paints are valid: reading a field opens the model.
    #[inline(always)]
    pub fn valid_by_type(&self)
        ensures { (i : ℕ) → IsValidPaint (paint_in self.now.paints i) }
    {
        let _paints = &self.paints;
    }

    /// Makes an entry of the DCLUT, 0 to 3, name another colour entry, 0 to 31.
    pub fn set_dclut(&mut self, i: u8, v: u8)
        requires number { i < 4 }
        requires entry { IsEntry v }
        ensures paints { self.new.paints ≡ self.old.paints }
        ensures dclut { self.new.dclut ≡ dclut_list_after self.old.dclut (Stroke.Dclut i v) }
    {
        self.dclut[usize::from(i)] = v;
    }

    /// The colour entry that an entry of the DCLUT, 0 to 3, names.
    pub fn dclut(&self, i: u8) -> u8
        requires { i < 4 }
        ensures dclut { result ≡ dclut_in self.now.dclut i }
        ensures valid { IsEntry result }
    {
        self.dclut[usize::from(i)]
    }

    /// Makes all entries the defaults again.
    pub fn defaults(&mut self)
        ensures { self.new ≡ default_colours }
    {
        *self = Colours::new();
    }
}
