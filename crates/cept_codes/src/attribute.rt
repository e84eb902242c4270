/// The size in which a sign is written: as it is, twice as high, twice as wide, or both.
#[derive(Clone, Copy, Debug, PartialEq, Eq)]
pub enum Size {
    Normal,
    High,
    Wide,
    Both,
}

/// How a sign flashes: not at all, plainly, inverted in phase, at reduced intensity, or in one of
/// the three fast phases.
#[derive(Clone, Copy, Debug, PartialEq, Eq)]
pub enum Flash {
    Steady,
    Plain,
    Inverted,
    Reduced,
    Fast1,
    Fast2,
    Fast3,
}

/// An attribute of a row or of the screen. Colours are entries 0 to 31, `NoBack` unsets the
/// background.
#[derive(Clone, Copy, Debug, PartialEq, Eq)]
pub enum Attr {
    Fore(u8),
    Back(u8),
    NoBack,
    Flash(Flash),
    Conceal(bool),
    Lined(bool),
    Boxed(bool),
    Size(Size),
    Invert(bool),
}

/// The attributes that were set, each class by itself. Colours are entries 0 to 31.
#[derive(Clone, Copy, Debug, PartialEq, Eq)]
pub struct Pen {
    pub fore: Option<u8>,
    pub back: Option<u8>,
    pub flash: Option<Flash>,
    pub conceal: Option<bool>,
    pub lined: Option<bool>,
    pub boxed: Option<bool>,
    pub size: Option<Size>,
    pub invert: Option<bool>,
}

/// An attribute of each class. Colours are entries 0 to 31.
#[derive(Clone, Copy, Debug, PartialEq, Eq)]
pub struct Full {
    pub fore: u8,
    pub back: u8,
    pub flash: Flash,
    pub conceal: bool,
    pub lined: bool,
    pub boxed: bool,
    pub size: Size,
    pub invert: bool,
}

impl Pen {
    /// The pen in which no class is set.
    pub const UNSET: Pen = Pen {
        fore: None,
        back: None,
        flash: None,
        conceal: None,
        lined: None,
        boxed: None,
        size: None,
        invert: None,
    };
}
