//! The numbers by which sets, flashes, sizes and areas are told, and what stands for one that is not
//! set.
ghost use Rattle.std.specs.Prelude.{◌≡◌};
ghost use Rattle.cept_control.specs.Numbers.{area_numbers, bit, c1_number, flag_or_unset};
ghost use Rattle.cept_control.specs.Numbers.{flash_number, flash_or_unset, number_or, set_number};
ghost use Rattle.cept_control.specs.Numbers.{set_numbers, size_or_unset};

use cept_charsets::Sets;
use cept_codes::{C1Set, Flash, SetId, Size};

/// What stands for an attribute that is not set.
pub const UNSET: u8 = 255;

/// A flag: 1 where it is set.
pub fn bit(flag: bool) -> u8
    ensures { result ≡ bit flag }
{
    if flag { 1 } else { 0 }
}

/// Sets P, S, M, N and D: 0 to 4.
pub fn set_number(set: SetId) -> u8
    ensures { result ≡ set_number set }
{
    match set {
        SetId::P => 0,
        SetId::S => 1,
        SetId::M => 2,
        SetId::N => 3,
        SetId::D => 4,
    }
}

/// Steady, plain, inverted, reduced and the three fast phases: 0 to 6.
pub fn flash_number(flash: Flash) -> u8
    ensures { result ≡ flash_number flash }
{
    match flash {
        Flash::Steady => 0,
        Flash::Plain => 1,
        Flash::Inverted => 2,
        Flash::Reduced => 3,
        Flash::Fast1 => 4,
        Flash::Fast2 => 5,
        Flash::Fast3 => 6,
    }
}

/// The serial set: 0, the parallel set: 1.
pub fn c1_number(set: C1Set) -> u8
    ensures { result ≡ c1_number set }
{
    match set {
        C1Set::Serial => 0,
        C1Set::Parallel => 1,
    }
}

/// A number, or what stands for none.
pub fn number_or(none: u8, number: Option<u8>) -> u8
    ensures { result ≡ number_or none number }
{
    match number {
        Some(number) => number,
        None => none,
    }
}

/// A flash, or 255.
pub fn flash_or_unset(flash: Option<Flash>) -> u8
    ensures { result ≡ flash_or_unset flash }
{
    match flash {
        Some(flash) => flash_number(flash),
        None => UNSET,
    }
}

/// A flag, or 255.
pub fn flag_or_unset(flag: Option<bool>) -> u8
    ensures { result ≡ flag_or_unset flag }
{
    match flag {
        Some(flag) => bit(flag),
        None => UNSET,
    }
}

/// Normal, twice as high, twice as wide and both: 0 to 3, or 255.
pub fn size_or_unset(size: Option<Size>) -> u8
    ensures { result ≡ size_or_unset size }
{
    match size {
        Some(Size::Normal) => 0,
        Some(Size::High) => 1,
        Some(Size::Wide) => 2,
        Some(Size::Both) => 3,
        None => UNSET,
    }
}

/// The first and the last row of an area, 0 and 0 where there is none.
pub fn area_numbers(area: Option<(u8, u8)>) -> (u8, u8)
    ensures { result ≡ area_numbers area }
{
    match area {
        Some((first, last)) => (first, last),
        None => (0, 0),
    }
}

/// The sets that are designated to G0 to G3.
pub fn set_numbers(sets: &Sets) -> [u8; 4]
    ensures { result ≡ set_numbers sets.now }
{
    [
        set_number(sets.set_in(0)),
        set_number(sets.set_in(1)),
        set_number(sets.set_in(2)),
        set_number(sets.set_in(3)),
    ]
}
