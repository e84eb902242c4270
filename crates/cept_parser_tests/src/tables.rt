//! The tables of the grammar, written out for the sweep: a row an arm, in their order. Each says
//! what bytes are that are wholly one unit or refusal. Nothing here calls the parser.

ghost use Rattle.std.specs.Prelude.{◌≤◌};

use cept_codes::{C1Set, Command, Form, Pattern, Reason, Rgb, Said, SetId};
use cept_parser::{ColourKind, Mode};

/// What bytes say, and the mode after them.
pub type Row = (Said, Mode);

/// Units of one byte, in any mode. Text follows.
fn unit_of_one_byte(byte: u8) -> Option<Command> {
    let command = match byte {
        0x00 => Command::Nul,
        0x08 => Command::Back,
        0x09 => Command::Forward,
        0x0A => Command::Down,
        0x0B => Command::Up,
        0x0C => Command::Clear,
        0x0D => Command::Return,
        0x0E => Command::LockLeft(1),
        0x0F => Command::LockLeft(0),
        0x11 => Command::CursorOn,
        0x14 => Command::CursorOff,
        0x18 => Command::Cancel,
        0x19 => Command::Single(2),
        0x1D => Command::Single(3),
        0x1E => Command::Home,
        0x80..=0x9A | 0x9C..=0x9F => Command::C1(byte - 0x80),
        0xA0..=0xFF => Command::Graphic(byte),
        _ => return None,
    };
    Some(command)
}

/// The set of a final byte.
fn set_of(byte: u8) -> Option<SetId> {
    match byte {
        0x40 => Some(SetId::P),
        0x62 => Some(SetId::S),
        0x63 => Some(SetId::M),
        0x64 => Some(SetId::N),
        _ => None,
    }
}

/// Longer units from 12 and 1B. Text follows.
fn longer_unit(bytes: &[u8]) -> Option<Command> {
    let command = match bytes {
        [0x12, x @ 0x40..=0x7F] => Command::Repeat(*x - 0x40),
        [0x1B, x @ (0x40..=0x5A | 0x5C..=0x5F)] => Command::C1(*x - 0x40),
        [0x1B, 0x6E] => Command::LockLeft(2),
        [0x1B, 0x6F] => Command::LockLeft(3),
        [0x1B, 0x7E] => Command::LockRight(1),
        [0x1B, 0x7D] => Command::LockRight(2),
        [0x1B, 0x7C] => Command::LockRight(3),
        [0x1B, 0x22, 0x40] => Command::DesignateC1(C1Set::Serial),
        [0x1B, 0x22, 0x41] => Command::DesignateC1(C1Set::Parallel),
        [0x1B, g @ 0x28..=0x2B, f] => Command::Designate(*g - 0x28, set_of(*f)?),
        [0x1B, g @ 0x28..=0x2B, 0x20, 0x40] => Command::Designate(*g - 0x28, SetId::D),
        [
            0x1B,
            0x23,
            0x20,
            x @ (0x40..=0x4B | 0x50..=0x5A | 0x5C..=0x5F),
        ] => Command::FullScreen(*x - 0x40),
        [0x1B, 0x23, 0x21, x @ (0x40..=0x5A | 0x5C..=0x5F)] => Command::FullRow(*x - 0x40),
        _ => return None,
    };
    Some(command)
}

/// The bytes after CSI.
fn bytes_after_csi(bytes: &[u8]) -> Option<&[u8]> {
    match bytes {
        [0x9B, rest @ ..] => Some(rest),
        [0x1B, 0x5B, rest @ ..] => Some(rest),
        _ => None,
    }
}

/// Units after CSI but the areas. Text follows.
fn unit_after_csi(bytes: &[u8]) -> Option<Command> {
    let command = match bytes {
        [k @ 0x30..=0x33, 0x40] => Command::Table(*k - 0x30),
        [k @ 0x30..=0x36, 0x41] => Command::FlashMode(*k - 0x30),
        [0x42] => Command::StopConceal,
        [0x30, 0x60] => Command::ScrollUp,
        [0x31, 0x60] => Command::ScrollDown,
        [0x32, 0x60] => Command::Implicit(true),
        [0x33, 0x60] => Command::Implicit(false),
        [0x31, 0x50] => Command::Protect(true),
        [0x31, 0x51] => Command::Protect(false),
        [0x32, 0x53] => Command::Marked(true),
        [0x32, 0x54] => Command::Marked(false),
        _ => return None,
    };
    Some(command)
}

/// A number of one or two digits.
fn number(digits: &[u8]) -> Option<u8> {
    match digits {
        [a @ 0x30..=0x39] => Some(*a - 0x30),
        [a @ 0x30..=0x39, b @ 0x30..=0x39] => Some(10 * (*a - 0x30) + (*b - 0x30)),
        _ => None,
    }
}

/// The numbers of an area form after CSI, and its final byte.
fn area(bytes: &[u8]) -> Option<(u8, u8, u8)> {
    match bytes {
        [n @ .., 0x3B, m, last @ 0x55..=0x56] => Some((number(n)?, number(&[*m])?, *last)),
        [n @ .., 0x3B, tens, ones, last @ 0x55..=0x56] => {
            Some((number(n)?, number(&[*tens, *ones])?, *last))
        }
        _ => None,
    }
}

/// Units and refusals after CSI. Text follows.
fn row_after_csi(bytes: &[u8]) -> Option<Said> {
    if let Some(command) = unit_after_csi(bytes) {
        return Some(Said::Command(command));
    }
    if let Some((n, m, last)) = area(bytes) {
        if !(1 <= n && n <= m && m <= 24) {
            return Some(Said::Refused(Reason::BadParameter));
        }
        return match last {
            0x55 => Some(Said::Command(Command::AreaCreate(n, m))),
            _ => Some(Said::Command(Command::AreaDelete(n, m))),
        };
    }
    match bytes {
        [low @ .., 0x40..=0x7F] if low.len() <= 7 && are_low(low) => {
            Some(Said::Refused(Reason::UnknownCsi))
        }
        [_, _, _, _, _, _, _, _] if are_low(bytes) => Some(Said::Refused(Reason::UnknownCsi)),
        _ => None,
    }
}

/// Each byte is of 20 to 3F.
fn are_low(bytes: &[u8]) -> bool {
    for byte in bytes {
        if !matches!(byte, 0x20..=0x3F) {
            return false;
        }
    }
    true
}

/// The sizes of patterns.
const SIZES: [(u8, u8, u8); 6] = [
    (0x36, 12, 12),
    (0x37, 12, 10),
    (0x3A, 6, 12),
    (0x3B, 6, 10),
    (0x3C, 6, 5),
    (0x3F, 6, 6),
];

/// The numbers of planes.
const PLANES: [(u8, u8); 3] = [(0x41, 1), (0x42, 2), (0x44, 4)];

/// The form that a header of patterns tells.
fn form_of(parts: &[u8]) -> Form {
    let mut form = Form {
        w: 12,
        h: 10,
        planes: 1,
    };
    for (byte, w, h) in SIZES {
        if parts.contains(&byte) {
            form.w = w;
            form.h = h;
        }
    }
    for (byte, planes) in PLANES {
        if parts.contains(&byte) {
            form.planes = planes;
        }
    }
    form
}

/// The bytes are optional parts in their order: each is of a later one than the byte before.
fn are_parts(parts: &[&[u8]], bytes: &[u8]) -> bool {
    let mut first = 0;
    for byte in bytes {
        match parts.iter().position(|part| part.contains(byte)) {
            Some(part) if part >= first => first = part + 1,
            _ => return false,
        }
    }
    true
}

/// The headers and the format, from 1F.
fn unit_with_parts(bytes: &[u8]) -> Option<(Command, Mode)> {
    let drcs: [&[u8]; 4] = [
        &[0x20, 0x28],
        &[0x40],
        &[0x36, 0x37, 0x3A, 0x3B, 0x3C, 0x3F],
        &[0x41, 0x42, 0x44],
    ];
    let colours: [&[u8]; 3] = [&[0x20, 0x22], &[0x34], &[0x40]];
    let format: [&[u8]; 2] = [&[0x41, 0x42], &[0x70, 0x71]];
    match bytes {
        [0x1F, 0x23, 0x20, parts @ ..] if are_parts(&drcs, parts) => {
            let command = Command::DrcsHeader(parts.contains(&0x28), form_of(parts));
            Some((command, Mode::Skip))
        }
        [0x1F, 0x26, 0x20, parts @ ..] if are_parts(&colours, parts) => {
            Some((Command::ColourHeader(parts.contains(&0x22)), Mode::Skip))
        }
        [0x1F, 0x2D, parts @ ..] if are_parts(&format, parts) => {
            let rows = if parts.contains(&0x42) { 20 } else { 24 };
            Some((Command::Format(rows, !parts.contains(&0x71)), Mode::Text))
        }
        _ => None,
    }
}

/// A further part may stand after a header or a format: its last part isn't there. A further byte may
/// stand after a pattern: a line or a plane isn't there.
pub fn goes_on(said: Said, bytes: &[u8]) -> bool {
    if let Said::Command(Command::DrcsPattern(_, pattern)) = said {
        let form = Form {
            w: pattern.w,
            h: pattern.h,
            planes: pattern.planes,
        };
        return Drawing::of(form, bytes).is_some_and(|drawing| drawing.goes_on());
    }
    match bytes {
        [0x1F, 0x23, 0x20, .., 0x41 | 0x42 | 0x44] => false,
        [0x1F, 0x26, 0x20, .., 0x40] => false,
        [0x1F, 0x2D, .., 0x70 | 0x71] => false,
        [0x1F, 0x23, 0x20, ..] => true,
        [0x1F, 0x26, 0x20, ..] => true,
        [0x1F, 0x2D, ..] => true,
        _ => false,
    }
}

/// Colours begin at a place.
fn colour_start(kind: ColourKind, place: u8) -> Option<(Command, Mode)> {
    match kind {
        ColourKind::ColourTable if place <= 31 => {
            Some((Command::ColourStart(place), Mode::TableRun(place)))
        }
        ColourKind::LookUpTable if place <= 3 => {
            Some((Command::ColourStart(place), Mode::DclutRun(place)))
        }
        _ => None,
    }
}

/// Units from 1F.
fn unit_from_1f(kind: ColourKind, bytes: &[u8]) -> Option<(Command, Mode)> {
    match bytes {
        [0x1F, r @ 0x41..=0x58, c @ 0x41..=0x68] => {
            Some((Command::Position(*r - 0x40, *c - 0x40), Mode::Text))
        }
        [0x1F, 0x23, c @ 0x21..=0x7E] => Some((Command::DrcsStart(*c), Mode::DrcsRun(*c))),
        [0x1F, 0x26, 0x21] => Some((Command::ColourDefaults, Mode::Skip)),
        [0x1F, 0x26, x @ 0x30..=0x39, y @ 0x30..=0x39] => {
            colour_start(kind, 10 * (*x - 0x30) + (*y - 0x30))
        }
        [0x1F, 0x2F, 0x40, r @ 0x41..=0x58] => Some((Command::ServiceBreak(*r - 0x40), Mode::Text)),
        [0x1F, 0x2F, 0x4F] => Some((Command::ServiceEnd, Mode::Text)),
        [0x1F, 0x2F, 0x41] => Some((Command::FullDefaults(C1Set::Serial), Mode::Text)),
        [0x1F, 0x2F, 0x42] => Some((Command::FullDefaults(C1Set::Parallel), Mode::Text)),
        [0x1F, 0x2F, 0x43] => Some((Command::ControlDefaults(C1Set::Serial), Mode::Text)),
        [0x1F, 0x2F, 0x44] => Some((Command::ControlDefaults(C1Set::Parallel), Mode::Text)),
        [0x1F, 0x2F, 0x45] => Some((Command::Revision(2), Mode::Text)),
        [0x1F, 0x2F, 0x46] => Some((Command::Revision(1), Mode::Text)),
        _ => unit_with_parts(bytes),
    }
}

/// The bit of a byte that is worth so much, as 0 or 1.
fn bit(byte: u8, worth: u8) -> u8
    ensures { result ≤ 1 }
{
    if byte & worth == 0 { 0 } else { 1 }
}

/// A part of a colour from the bits of these worths in the first byte and in the second.
fn part(x: u8, y: u8, high: u8, low: u8) -> u8 {
    8 * bit(x, high) + 4 * bit(x, low) + 2 * bit(y, high) + bit(y, low)
}

/// Units that begin with a plain byte.
fn unit_in_run(mode: Mode, form: Form, bytes: &[u8]) -> Option<(Command, Mode)> {
    match (mode, bytes) {
        (Mode::DrcsRun(c), _) if c < 0x7F => {
            let pattern = Drawing::of(form, bytes)?.pattern();
            Some((Command::DrcsPattern(c, pattern), Mode::DrcsRun(c + 1)))
        }
        (Mode::Text, [x @ 0x20..=0x7F]) => Some((Command::Graphic(*x), Mode::Text)),
        (Mode::Skip, [0x20..=0x7F]) => Some((Command::Skipped, Mode::Skip)),
        (Mode::TableRun(i), [x @ 0x40..=0x7F, y @ 0x40..=0x7F]) if i < 32 => {
            let colour = Rgb {
                r: part(*x, *y, 0x20, 0x04),
                g: part(*x, *y, 0x10, 0x02),
                b: part(*x, *y, 0x08, 0x01),
            };
            Some((Command::Entry(i, colour), Mode::TableRun(i + 1)))
        }
        (Mode::DclutRun(i), [x @ 0x40..=0x7F]) if i < 4 => {
            Some((Command::Dclut(i, *x & 0x1F), Mode::DclutRun(i + 1)))
        }
        _ => None,
    }
}

/// Refusals of plain bytes in a run. Skip follows.
fn is_refused_in_run(mode: Mode, bytes: &[u8]) -> bool {
    match (mode, bytes) {
        (Mode::TableRun(i), [x @ 0x20..=0x7F]) => i >= 32 || *x < 0x40,
        (Mode::TableRun(i), [0x40..=0x7F, 0x20..=0x3F]) => i < 32,
        (Mode::DclutRun(i), [x @ 0x20..=0x7F]) => i >= 4 || *x < 0x40,
        (Mode::DrcsRun(_), [0x20..=0x7F]) => true,
        _ => false,
    }
}

/// Refusals but those after CSI and in a run: their reason, and the mode after them.
fn refusal(bytes: &[u8]) -> Option<(Reason, Mode)> {
    match bytes {
        [0x01..=0x07 | 0x10 | 0x13 | 0x15..=0x17 | 0x1A | 0x1C] => {
            Some((Reason::UnassignedControl, Mode::Text))
        }
        [0x12, 0x20..=0x3F] => Some((Reason::BadParameter, Mode::Text)),
        [0x1B, 0x30..=0x5A | 0x5C..=0x7F] => Some((Reason::UnknownEscape, Mode::Text)),
        [0x1B, middle @ .., last @ 0x20..=0x7F] if are_middle(middle) => {
            if *last >= 0x30 && middle.len() <= 3 || *last < 0x30 && middle.len() == 3 {
                Some((Reason::UnknownEscape, Mode::Text))
            } else {
                None
            }
        }
        [0x1F, 0x40..=0x7F, 0x20..=0x7F] => Some((Reason::BadParameter, Mode::Text)),
        [0x1F, 0x23, 0x7F] => Some((Reason::BadParameter, Mode::Skip)),
        [0x1F, 0x26, 0x22..=0x2F | 0x3A..=0x7F] => Some((Reason::BadParameter, Mode::Skip)),
        [0x1F, 0x26, 0x30..=0x39, 0x20..=0x7F] => Some((Reason::BadParameter, Mode::Skip)),
        [0x1F, 0x2F, 0x20..=0x3F | 0x47..=0x4E | 0x50..=0x7F] => {
            Some((Reason::BadParameter, Mode::Skip))
        }
        [0x1F, 0x2F, 0x40, 0x20..=0x7F] => Some((Reason::BadParameter, Mode::Skip)),
        [
            0x1F,
            0x20..=0x22 | 0x24 | 0x25 | 0x27..=0x2C | 0x2E | 0x30..=0x3F,
        ] => { Some((Reason::UnknownUnit, Mode::Skip)) }
        _ => None,
    }
}

/// Each byte is of 20 to 2F, and there is at least one.
fn are_middle(bytes: &[u8]) -> bool {
    for byte in bytes {
        if !matches!(byte, 0x20..=0x2F) {
            return false;
        }
    }
    !bytes.is_empty()
}

/// The row of bytes that are wholly a unit or a refusal. The first table that has one tells it.
pub fn row(mode: Mode, kind: ColourKind, form: Form, bytes: &[u8]) -> Option<Row> {
    if let [byte] = bytes {
        if let Some(command) = unit_of_one_byte(*byte) {
            return Some((Said::Command(command), Mode::Text));
        }
    }
    if let Some(command) = longer_unit(bytes) {
        return Some((Said::Command(command), Mode::Text));
    }
    if let Some(rest) = bytes_after_csi(bytes) {
        return Some((row_after_csi(rest)?, Mode::Text));
    }
    if let Some((command, after)) = unit_from_1f(kind, bytes) {
        return Some((Said::Command(command), after));
    }
    if let Some((command, after)) = unit_in_run(mode, form, bytes) {
        return Some((Said::Command(command), after));
    }
    if is_refused_in_run(mode, bytes) {
        return Some((Said::Refused(Reason::BadParameter), Mode::Skip));
    }
    let (reason, after) = refusal(bytes)?;
    Some((Said::Refused(reason), after))
}

/// The kind of colours after what is said: the header of colours sets it, and full defaults bring
/// back the table.
pub fn kind_after(kind: ColourKind, said: Said) -> ColourKind {
    match said {
        Said::Command(Command::ColourHeader(true)) => ColourKind::LookUpTable,
        Said::Command(Command::ColourHeader(false)) => ColourKind::ColourTable,
        Said::Command(Command::FullDefaults(_)) => ColourKind::ColourTable,
        _ => kind,
    }
}

/// The form of patterns after what is said: their header sets it, and full defaults bring back the
/// first one.
pub fn form_after(form: Form, said: Said) -> Form {
    match said {
        Said::Command(Command::DrcsHeader(_, form)) => form,
        Said::Command(Command::FullDefaults(_)) => form_of(&[]),
        _ => form,
    }
}

/// Bytes of a pattern as they are drawn, pixel by pixel.
#[derive(Drop)]
struct Drawing {
    form: Form,
    bits: [u64; 9],
    /// The open plane, and how many of its lines are drawn.
    plane: u8,
    lines: u8,
    /// The line before, and the left half of a line of twelve pixels whose right half isn't there.
    before: u16,
    half: Option<u16>,
}

impl Drawing {
    /// The drawing of these bytes, if they are a pattern of this form.
    fn of(form: Form, bytes: &[u8]) -> Option<Drawing> {
        let [0x30, rest @ ..] = bytes else {
            return None;
        };
        let mut drawing = Drawing {
            form,
            bits: [0; 9],
            plane: 0,
            lines: 0,
            before: 0,
            half: None,
        };
        for byte in rest {
            if !drawing.take(*byte) {
                return None;
            }
        }
        Some(drawing)
    }

    /// One byte more, unless it can't stand here.
    fn take(&mut self, byte: u8) -> bool {
        match byte {
            0x31..=0x33 => {
                self.end_line();
                let opens = byte - 0x30 > self.plane && byte - 0x30 < self.form.planes;
                self.plane = byte - 0x30;
                self.lines = 0;
                self.before = 0;
                opens
            }
            0x20..=0x2A | 0x2C..=0x2F | 0x40..=0x7F => {
                let stands = self.lines < self.form.h;
                self.add(byte);
                stands
            }
            _ => false,
        }
    }

    /// The lines that a byte adds.
    fn add(&mut self, byte: u8) {
        if byte >= 0x40 {
            let six = six_pixels(byte);
            match self.half {
                Some(left) => self.line(left | six << 6),
                None if self.form.w == 6 => self.line(six),
                None => self.half = Some(six),
            }
            return;
        }
        self.end_line();
        let (times, line) = match byte {
            0x21..=0x2A => (byte - 0x20, self.before),
            0x2E => (12, self.before),
            0x2C => (1, 0),
            0x20 => (12, 0),
            0x2D => (1, 0xFFF),
            _ => (12, 0xFFF),
        };
        for _ in 0..times {
            self.line(line);
        }
    }

    /// A half line gets pixels of 0.
    fn end_line(&mut self) {
        if let Some(left) = self.half {
            self.line(left);
        }
    }

    /// One line, if there is room for it.
    fn line(&mut self, line: u16) {
        self.half = None;
        if self.lines >= self.form.h {
            return;
        }
        for x in 0..12u16 {
            if x < u16::from(self.form.w) && (line >> x) % 2 == 1 {
                self.set(x);
            }
        }
        self.before = line;
        self.lines = self.lines.saturating_add(1);
    }

    /// The pixel of this column of the next line.
    fn set(&mut self, x: u16) {
        let line = u16::from(self.plane)
            .wrapping_mul(u16::from(self.form.h))
            .wrapping_add(u16::from(self.lines));
        let bit = line.wrapping_mul(u16::from(self.form.w)).wrapping_add(x);
        if let Some(word) = self.bits.get_mut(usize::from(bit / 64)) {
            *word |= 1 << (bit % 64);
        }
    }

    /// The pattern drawn.
    fn pattern(mut self) -> Pattern {
        self.end_line();
        Pattern {
            w: self.form.w,
            h: self.form.h,
            planes: self.form.planes,
            bits: self.bits,
        }
    }

    /// A line isn't there, or a plane.
    fn goes_on(&self) -> bool {
        self.lines < self.form.h || self.plane < 3 && self.plane + 1 < self.form.planes
    }
}

/// The six pixels of a byte, the left one in the lowest bit.
fn six_pixels(byte: u8) -> u16 {
    let mut pixels = 0;
    for x in 0..6u16 {
        pixels |= u16::from(bit(byte, 0x20 >> x)) << x;
    }
    pixels
}
