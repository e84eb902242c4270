use crate::attribute::Flash;
use crate::glyph::Glyph;

/// A colour: red, green and blue, each 0 to 15.
#[derive(Clone, Copy, Debug, PartialEq, Eq)]
pub struct Rgb {
    pub r: u8,
    pub g: u8,
    pub b: u8,
}

/// What a colour entry shows: a colour, or what lies behind the screen.
#[derive(Clone, Copy, Debug, PartialEq, Eq)]
pub enum Paint {
    Ink(Rgb),
    Video,
}

/// A downloaded pattern of 12x12, 12x10, 6x12, 6x10, 6x5 or 6x6 pixels in 1, 2 or 4 planes. The
/// pixel of plane `p`, line `y` and column `x` is bit `n % 64` of `bits[n / 64]`, where `n` is `(p
/// * h + y) * w + x`. All other bits are 0.
#[derive(Clone, Copy, Debug, PartialEq, Eq)]
pub struct Pattern {
    pub w: u8,
    pub h: u8,
    pub planes: u8,
    pub bits: [u64; 9],
}

/// The paints of a pattern's pixels: 0, 4 or 16 of them. Those after `count` are the ink 0, 0, 0.
#[derive(Clone, Copy, Debug, PartialEq, Eq)]
pub struct Inks {
    pub count: u8,
    pub paints: [Paint; 16],
}

/// What is drawn at a place: nothing, a sign, or a downloaded pattern with its inks.
#[derive(Clone, Copy, Debug, PartialEq, Eq)]
pub enum Shape {
    Space,
    Char(Glyph),
    Drcs(Pattern, Inks),
}

/// Which part of a shape a place shows: the one `dy` down and `dx` right of its upper left part, of
/// a shape that is `w` places wide and `h` high. `dy` and `dx` are 0 or 1, `w` and `h` 1 or 2.
#[derive(Clone, Copy, Debug, PartialEq, Eq)]
pub struct Part {
    pub dy: u8,
    pub dx: u8,
    pub w: u8,
    pub h: u8,
}

/// All that is seen at one place. `dy`, `dx`, `w` and `h` are those of its [`Part`].
#[derive(Clone, Copy, Debug, PartialEq, Eq)]
pub struct Look {
    pub shape: Shape,
    pub dy: u8,
    pub dx: u8,
    pub w: u8,
    pub h: u8,
    pub fore: Paint,
    pub back: Paint,
    pub flash: Flash,
    pub conceal: bool,
    pub lined: bool,
    pub boxed: bool,
}

impl Paint {
    /// No red, no green and no blue.
    pub const BLACK: Paint = Paint::Ink(Rgb { r: 0, g: 0, b: 0 });

    /// All of red, green and blue.
    pub const WHITE: Paint = Paint::Ink(Rgb {
        r: 15,
        g: 15,
        b: 15,
    });
}

impl Look {
    /// A space, white on black, steady, with no attribute.
    pub const BLANK: Look = Look {
        shape: Shape::Space,
        dy: 0,
        dx: 0,
        w: 1,
        h: 1,
        fore: Paint::WHITE,
        back: Paint::BLACK,
        flash: Flash::Steady,
        conceal: false,
        lined: false,
        boxed: false,
    };
}
