use crate::glyph::SetId;
use crate::look::{Pattern, Rgb};

/// A set of C1 codes: markers that stand in cells, or attributes that go with each sign.
#[derive(Clone, Copy, Debug, PartialEq, Eq)]
pub enum C1Set {
    Serial,
    Parallel,
}

/// A way to scroll.
#[derive(Clone, Copy, Debug, PartialEq, Eq)]
pub enum Up {
    Up,
    Down,
}

/// The form of downloaded patterns: their width and height in pixels, and how many planes they
/// have.
#[derive(Clone, Copy, Debug, PartialEq, Eq)]
pub struct Form {
    pub w: u8,
    pub h: u8,
    pub planes: u8,
}

/// What one unit of the byte stream means. Codes are written column/row.
#[derive(Clone, Copy, Debug, PartialEq, Eq)]
pub enum Command {
    /// NUL 0/0 has no effect.
    Nul,
    /// A byte that is passed over has no effect.
    Skipped,
    /// APB 0/8 moves one column back.
    Back,
    /// APF 0/9 moves one column forward.
    Forward,
    /// APD 0/10 moves one row down.
    Down,
    /// APU 0/11 moves one row up.
    Up,
    /// CS 0/12 clears the screen and goes home.
    Clear,
    /// APR 0/13 goes to the first column.
    Return,
    /// APH 1/14 goes to the first column of the first row.
    Home,
    /// CON 1/1 shows the cursor.
    CursorOn,
    /// COF 1/4 hides the cursor.
    CursorOff,
    /// CAN 1/8 erases from the position to the end of the row.
    Cancel,
    /// LS0, LS1, LS2, LS3 lock G0 to G3 to the left bytes.
    LockLeft(u8),
    /// LS1R, LS2R, LS3R lock G1 to G3 to the right bytes.
    LockRight(u8),
    /// SS2 1/9 and SS3 1/13 take the next sign from G2 or G3.
    Single(u8),
    /// RPT 1/2 writes the last sign so many times more, 0 to 63.
    Repeat(u8),
    /// US 1/15, row and column set the position: row 1 to 24, column 1 to 40.
    Position(u8, u8),
    /// A graphic byte, 2/0 to 7/15 or 10/0 to 15/15.
    Graphic(u8),
    /// The C1 code of this number from 8/0 on, 0 to 31 without 27.
    C1(u8),
    /// ESC 2/2 4/0 and ESC 2/2 4/1 choose the C1 set.
    DesignateC1(C1Set),
    /// ESC 2/8 to 2/11 and a final designate a set to G0 to G3.
    Designate(u8, SetId),
    /// CSI 3/k 4/0 chooses the colour table 0 to 3.
    Table(u8),
    /// CSI 3/k 4/1 chooses a flash mode 0 to 6.
    FlashMode(u8),
    /// CSI 4/2 stops concealing.
    StopConceal,
    /// CSI 3/0 6/0 scrolls the area up.
    ScrollUp,
    /// CSI 3/1 6/0 scrolls the area down.
    ScrollDown,
    /// CSI 3/2 6/0 and CSI 3/3 6/0 switch implicit scrolling on and off.
    Implicit(bool),
    /// CSI 3/1 5/0 and CSI 3/1 5/1 switch the protection of written cells on and off.
    Protect(bool),
    /// CSI 3/2 5/3 and CSI 3/2 5/4 switch marked mode on and off.
    Marked(bool),
    /// CSI n 3/11 m 5/5 makes rows n to m the scrolling area, `1 <= n <= m <= 24`.
    AreaCreate(u8, u8),
    /// CSI n 3/11 m 5/6 ends the scrolling area of rows n to m, `1 <= n <= m <= 24`.
    AreaDelete(u8, u8),
    /// ESC 2/3 2/0 and a C1 code less 4/0 set an attribute of the screen, 0 to 31 without 12 to 15
    /// and 27.
    FullScreen(u8),
    /// ESC 2/3 2/1 and a C1 code less 4/0 set an attribute of the row, 0 to 31 without 27.
    FullRow(u8),
    /// US 2/6 2/0 is the header of colour units, true for the DCLUT.
    ColourHeader(bool),
    /// US 2/6 2/1 gives all colours their defaults.
    ColourDefaults,
    /// US 2/6 and two digits begin colours at this entry, 0 to 31.
    ColourStart(u8),
    /// Colour entry 0 to 31 becomes this colour.
    Entry(u8, Rgb),
    /// DCLUT entry 0 to 3 becomes this colour entry, 0 to 31.
    Dclut(u8, u8),
    /// US 2/3 2/0 is the header of downloaded patterns, true where all patterns are deleted.
    DrcsHeader(bool, Form),
    /// US 2/3 and a code 2/1 to 7/14 begin patterns at this code.
    DrcsStart(u8),
    /// The pattern of this code, 2/1 to 7/14.
    DrcsPattern(u8, Pattern),
    /// US 2/13 is the format: 24 or 20 rows, and whether positions wrap.
    Format(u8, bool),
    /// US 2/15 4/0 and a row 1 to 24 begin a break of the service.
    ServiceBreak(u8),
    /// US 2/15 4/15 ends it.
    ServiceEnd,
    /// US 2/15 4/1 and US 2/15 4/2 reset everything.
    FullDefaults(C1Set),
    /// US 2/15 4/3 and US 2/15 4/4 reset the control state.
    ControlDefaults(C1Set),
    /// US 2/15 4/5 and US 2/15 4/6 choose revision 2 and revision 1 of the rules.
    Revision(u8),
}
