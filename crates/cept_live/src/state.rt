//! Where a decoder stands, as a record whose fields are numbers alone.
ghost use Rattle.std.specs.Prelude.{◌≡◌};
ghost use Rattle.cept_live.specs.States.{control_record, pen_record};

use cept_codes::Pen;
use cept_control::Control;
use cept_control::numbers::{
    area_numbers, bit, c1_number, flag_or_unset, flash_or_unset, number_or, set_numbers,
    size_or_unset,
};

/// What stands for an attribute that is not set.
pub const UNSET: u8 = 255;

/// The attributes with which signs are written under the parallel set. 255 stands for one that is
/// not set. Colours are entries 0 to 31, sizes 0 normal, 1 twice as high, 2 twice as wide and 3 both.
#[repr(C)]
#[derive(Clone, Copy, Debug, PartialEq, Eq)]
pub struct PenRecord {
    pub fore: u8,
    pub back: u8,
    pub flash: u8,
    pub conceal: u8,
    pub lined: u8,
    pub boxed: u8,
    pub size: u8,
    pub invert: u8,
}

/// Where a decoder stands: how many bytes were fed, how many of them are no item yet, whether the
/// page has ended, and the position, the modes, the sets and the pen. `first` and `last` are the rows
/// of the scrolling area, 0 where there is none; `single` is the set that a single shift takes, 0
/// where none waits, and `accent` the accent that waits for its sign, 0 where none does.
#[repr(C)]
#[derive(Clone, Copy, Debug, PartialEq, Eq)]
pub struct DecoderState {
    pub fed: u64,
    pub pending: u8,
    pub ended: u8,
    pub row: u8,
    pub column: u8,
    pub rows: u8,
    pub wrap: u8,
    pub first: u8,
    pub last: u8,
    pub implicit: u8,
    pub revision: u8,
    pub c1: u8,
    pub g: [u8; 4],
    pub left: u8,
    pub right: u8,
    pub single: u8,
    pub accent: u8,
    pub table: u8,
    pub protect: u8,
    pub pen: PenRecord,
}

impl PenRecord {
    fn of(pen: &Pen) -> PenRecord
        ensures { result ≡ pen_record pen.now }
    {
        PenRecord {
            fore: number_or(UNSET, pen.fore),
            back: number_or(UNSET, pen.back),
            flash: flash_or_unset(pen.flash),
            conceal: flag_or_unset(pen.conceal),
            lined: flag_or_unset(pen.lined),
            boxed: flag_or_unset(pen.boxed),
            size: size_or_unset(pen.size),
            invert: flag_or_unset(pen.invert),
        }
    }
}

impl DecoderState {
    /// Where a decoder stands that was fed so many bytes, of which so many are pending.
    pub(crate) fn of(fed: u64, pending: u8, ended: bool, control: &Control) -> DecoderState
        ensures { result ≡ control_record fed pending ended control.now }
    {
        let at = control.active();
        let (first, last) = area_numbers(control.area());
        let sets = control.sets();
        DecoderState {
            fed,
            pending,
            ended: bit(ended),
            row: at.row(),
            column: at.col(),
            rows: control.rows(),
            wrap: bit(control.wrap()),
            first,
            last,
            implicit: bit(control.implicit()),
            revision: control.revision(),
            c1: c1_number(control.c1()),
            g: set_numbers(&sets),
            left: sets.left(),
            right: sets.right(),
            single: number_or(0, sets.waiting()),
            accent: number_or(0, control.accent()),
            table: control.table(),
            protect: bit(control.protect()),
            pen: PenRecord::of(&control.pen()),
        }
    }
}
