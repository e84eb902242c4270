//! The state of control as bytes, and back: what it takes to go on from there.
ghost use Rattle.std.specs.Prelude.{ℕ, Bool, ◌≡◌, ◌≤◌, ◌↔◌, ◌++◌};
ghost use Rattle.std.specs.Prelude.{Option, Some, true, length, IfSome};
ghost use Rattle.cept_codes.specs.Attribute.{IsEntry, IsValidPen};
ghost use Rattle.cept_codes.specs.Command.{IsArea};
ghost use Rattle.cept_codes.specs.Glyph.{IsValidGlyph};
ghost use Rattle.cept_profile.specs.Control.{ControlState, Working as WorkingState};
ghost use Rattle.cept_profile.specs.Sets.{Sets as SetsInForce};
ghost use Rattle.cept_profile.specs.Valid.{AreValidSets, IsValidControl, IsValidWorking};
ghost use Rattle.cept_control.specs.Bytes.{control_bytes, kept_bytes, mode_bytes, pen_bytes};
ghost use Rattle.cept_control.specs.Bytes.{sets_bytes, sign_numbers, working_bytes};
ghost use Rattle.cept_control.specs.Numbers.{area_numbers, bit, c1_number, flag_or_unset};
ghost use Rattle.cept_control.specs.Numbers.{flash_or_unset, number_or, set_number, size_or_unset};

use crate::control::Control;
use crate::numbers::{
    UNSET, area_numbers, bit, c1_number, flag_or_unset, flash_or_unset, number_or, set_number,
    set_numbers, size_or_unset,
};
use crate::working::Working;
use arrayvec::ArrayVec;
use cept_charsets::Sets;
use cept_codes::{C1Set, Flash, Glyph, Pen, SetId, Size};

/// How many bytes a state of control has while a service keeps something.
pub const MOST_BYTES: usize = 61;

/// How many it has while a service keeps nothing.
const LEAST_BYTES: usize = 34;

/// The state as bytes.
impl Control {
    /// The state as bytes: 34 of them, 61 while a service keeps something.
    pub fn bytes(&self) -> ArrayVec<u8, MOST_BYTES>
        ensures bytes { result.items ≡ control_bytes self.now }
        ensures few { length result.items ≤ 61 }
    {
        let (first, last) = area_numbers(self.area);
        let mut bytes = ArrayVec::new();
        push_working(&self.working, &mut bytes);
        bytes.push(self.rows);
        bytes.push(bit(self.wrap));
        bytes.push(first);
        bytes.push(last);
        bytes.push(bit(self.implicit));
        bytes.push(self.revision);
        push_kept(self.kept, &mut bytes);
        bytes
    }

    /// The state that has these bytes, where there is one. Of other bytes it answers nothing or
    /// another state: the bytes of the answer tell.
    pub fn of_bytes(bytes: &[u8]) -> Option<Control>
        ensures back { (c : ControlState) → IsValidControl c → control_bytes c ≡ bytes.now
            → result ≡ Some c }
    {
        if bytes.len() < LEAST_BYTES {
            return None;
        }
        let working = working_of(&bytes[..27]);
        let kept = kept_of(&bytes[33..]);
        Some(control_of(working, &bytes[27..33], kept))
    }
}

impl Working {
    fn bytes(&self) -> [u8; 27]
        ensures { result ≡ working_bytes self.now }
    {
        let [g0, g1, g2, g3] = set_numbers(&self.sets);
        let (set, code, accent) = sign_numbers(self.last);
        [
            self.row,
            self.column,
            c1_number(self.c1),
            g0,
            g1,
            g2,
            g3,
            self.sets.left(),
            self.sets.right(),
            number_or(0, self.sets.waiting()),
            number_or(0, self.accent),
            set,
            code,
            accent,
            number_or(UNSET, self.pen.fore),
            number_or(UNSET, self.pen.back),
            flash_or_unset(self.pen.flash),
            flag_or_unset(self.pen.conceal),
            flag_or_unset(self.pen.lined),
            flag_or_unset(self.pen.boxed),
            size_or_unset(self.pen.size),
            flag_or_unset(self.pen.invert),
            self.fast,
            bit(self.run),
            self.step,
            self.table,
            bit(self.protect),
        ]
    }
}

fn sign_numbers(sign: Option<Glyph>) -> (u8, u8, u8)
    ensures { result ≡ sign_numbers sign }
{
    match sign {
        Some(sign) => (set_number(sign.set), sign.code, sign.accent),
        None => (UNSET, 0, 0),
    }
}

/// Adds what a service keeps.
fn push_kept(kept: Option<Working>, bytes: &mut ArrayVec<u8, MOST_BYTES>)
    requires { length bytes.old.items ≤ 33 }
    ensures { bytes.new.items ≡ bytes.old.items ++ kept_bytes kept }
{
    match kept {
        Some(working) => {
            bytes.push(1);
            push_working(&working, bytes);
        }
        None => bytes.push(0),
    }
}

/// Adds a working state.
fn push_working(working: &Working, bytes: &mut ArrayVec<u8, MOST_BYTES>)
    requires { length bytes.old.items ≤ 34 }
    ensures { bytes.new.items ≡ bytes.old.items ++ working_bytes working.now }
{
    bytes.try_extend_from_slice(&working.bytes()).unwrap();
}

/// The state with these bytes of its modes.
fn control_of(working: Working, modes: &[u8], kept: Option<Working>) -> Control
    requires modes { length modes.now ≡ 6 }
    requires working { IsValidWorking working }
    requires kept { IfSome kept IsValidWorking }
    ensures { (c : ControlState) → IsValidControl c → c.working ≡ working
        → mode_bytes c ≡ modes.now → c.kept ≡ kept → result ≡ c }
{
    let rows = if modes[0] == 20 { 20 } else { 24 };
    Control {
        working: Working {
            row: working.row.min(rows),
            ..working
        },
        rows,
        wrap: flag_of(modes[1]),
        area: area_of(modes[2], modes[3]),
        implicit: flag_of(modes[4]),
        revision: modes[5].clamp(1, 2),
        kept,
    }
}

/// What a service keeps that has these bytes.
fn kept_of(bytes: &[u8]) -> Option<Working>
    ensures valid { IfSome result IsValidWorking }
    ensures back { (kept : Option WorkingState) → IfSome kept IsValidWorking
        → kept_bytes kept ≡ bytes.now → result ≡ kept }
{
    if bytes.len() == 28 {
        Some(working_of(&bytes[1..]))
    } else {
        None
    }
}

/// The working state that has these bytes.
fn working_of(bytes: &[u8]) -> Working
    requires { length bytes.now ≡ 27 }
    ensures valid { IsValidWorking result }
    ensures back { (w : WorkingState) → IsValidWorking w → working_bytes w ≡ bytes.now
        → result ≡ w }
{
    Working {
        row: bytes[0].clamp(1, 24),
        column: bytes[1].clamp(1, 40),
        c1: c1_of(bytes[2]),
        sets: sets_of(&bytes[3..10]),
        accent: accent_of(bytes[10]),
        last: sign_of(bytes[11], bytes[12], bytes[13]),
        pen: pen_of(&bytes[14..22]),
        fast: bytes[22].min(3),
        run: flag_of(bytes[23]),
        step: bytes[24].clamp(1, 2),
        table: bytes[25].min(3),
        protect: flag_of(bytes[26]),
    }
}

/// The sets that have these bytes.
fn sets_of(bytes: &[u8]) -> Sets
    requires { length bytes.now ≡ 7 }
    ensures valid { AreValidSets result }
    ensures back { (s : SetsInForce) → AreValidSets s → sets_bytes s ≡ bytes.now → result ≡ s }
{
    let mut sets = Sets::new();
    sets.designate(0, set_of(bytes[0]));
    sets.designate(1, set_of(bytes[1]));
    sets.designate(2, set_of(bytes[2]));
    sets.designate(3, set_of(bytes[3]));
    sets.lock_left(bytes[4].min(3));
    sets.lock_right(bytes[5].clamp(1, 3));
    if bytes[6] != 0 {
        sets.single(bytes[6].clamp(2, 3));
    }
    sets
}

/// The pen that has these bytes.
fn pen_of(bytes: &[u8]) -> Pen
    requires { length bytes.now ≡ 8 }
    ensures valid { IsValidPen result }
    ensures back { (pen : Pen) → IsValidPen pen → pen_bytes pen ≡ bytes.now → result ≡ pen }
{
    Pen {
        fore: entry_of(bytes[0]),
        back: entry_of(bytes[1]),
        flash: flash_of(bytes[2]),
        conceal: set_flag_of(bytes[3]),
        lined: set_flag_of(bytes[4]),
        boxed: set_flag_of(bytes[5]),
        size: size_of(bytes[6]),
        invert: set_flag_of(bytes[7]),
    }
}

/// The area with these rows.
fn area_of(first: u8, last: u8) -> Option<(u8, u8)>
    ensures valid { IfSome result (λ a. IsArea a.0 a.1) }
    ensures back { (area : Option (ℕ × ℕ)) → IfSome area (λ a. IsArea a.0 a.1)
        → area_numbers area ≡ (first, last) → result ≡ area }
{
    if 1 <= first && first <= last && last <= 24 {
        Some((first, last))
    } else {
        None
    }
}

/// The sign with these numbers.
fn sign_of(set: u8, code: u8, accent: u8) -> Option<Glyph>
    ensures valid { IfSome result IsValidGlyph }
    ensures back { (sign : Option Glyph) → IfSome sign IsValidGlyph
        → sign_numbers sign ≡ (set, code, accent) → result ≡ sign }
{
    let sign = Glyph {
        set: set_of(set),
        code,
        accent,
    };
    if set != UNSET && is_sign(sign) {
        Some(sign)
    } else {
        None
    }
}

fn is_sign(sign: Glyph) -> bool
    ensures { (result ≡ true) ↔ IsValidGlyph sign }
{
    let first = if sign.set == SetId::P { 0x20 } else { 0x21 };
    let is_accent = 0x40 <= sign.accent && sign.accent <= 0x4F;
    let is_mark = sign.set == SetId::S && 0x40 <= sign.code && sign.code <= 0x4F;
    first <= sign.code
        && sign.code <= 0x7F
        && !is_mark
        && (sign.accent == 0 || sign.set == SetId::P && is_accent)
}

/// The accent with this code.
fn accent_of(code: u8) -> Option<u8>
    ensures valid { IfSome result (λ code. (0x40 ≤ code) × (code ≤ 0x4F)) }
    ensures back { (accent : Option ℕ) → IfSome accent (λ code. (0x40 ≤ code) × (code ≤ 0x4F))
        → number_or 0 accent ≡ code → result ≡ accent }
{
    if 0x40 <= code && code <= 0x4F {
        Some(code)
    } else {
        None
    }
}

/// The colour entry with this number.
fn entry_of(number: u8) -> Option<u8>
    ensures valid { IfSome result IsEntry }
    ensures back { (entry : Option ℕ) → IfSome entry IsEntry → number_or 255 entry ≡ number
        → result ≡ entry }
{
    if number < 32 { Some(number) } else { None }
}

fn c1_of(number: u8) -> C1Set
    ensures { (set : C1Set) → c1_number set ≡ number → result ≡ set }
{
    if number == 0 {
        C1Set::Serial
    } else {
        C1Set::Parallel
    }
}

fn set_of(number: u8) -> SetId
    ensures { (set : SetId) → set_number set ≡ number → result ≡ set }
{
    match number {
        0 => SetId::P,
        1 => SetId::S,
        2 => SetId::M,
        3 => SetId::N,
        _ => SetId::D,
    }
}

fn flash_of(number: u8) -> Option<Flash>
    ensures { (flash : Option Flash) → flash_or_unset flash ≡ number → result ≡ flash }
{
    match number {
        0 => Some(Flash::Steady),
        1 => Some(Flash::Plain),
        2 => Some(Flash::Inverted),
        3 => Some(Flash::Reduced),
        4 => Some(Flash::Fast1),
        5 => Some(Flash::Fast2),
        6 => Some(Flash::Fast3),
        _ => None,
    }
}

fn size_of(number: u8) -> Option<Size>
    ensures { (size : Option Size) → size_or_unset size ≡ number → result ≡ size }
{
    match number {
        0 => Some(Size::Normal),
        1 => Some(Size::High),
        2 => Some(Size::Wide),
        3 => Some(Size::Both),
        _ => None,
    }
}

fn flag_of(number: u8) -> bool
    ensures { (flag : Bool) → bit flag ≡ number → result ≡ flag }
{
    number == 1
}

/// The flag of an attribute that can be unset.
fn set_flag_of(number: u8) -> Option<bool>
    ensures { (flag : Option Bool) → flag_or_unset flag ≡ number → result ≡ flag }
{
    match number {
        0 => Some(false),
        1 => Some(true),
        _ => None,
    }
}
