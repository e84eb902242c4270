ghost use Rattle.std.specs.Prelude.{◌≡◌, [], ◌∷◌};
ghost use Rattle.cept_parser.specs.Csi.{area, csi};

use crate::bytes::{is_digit, two_digits};
use cept_codes::{Command, Reason, Said};

/// CSI, a parameter and a final byte.
#[tactic(auto, unfolding(crate::specs::Csi::csi))]
fn csi_2(first: u8, last: u8) -> Said
    ensures { result ≡ csi (first ∷ last ∷ []) }
{
    match (first, last) {
        (0x30..=0x33, 0x40) => Said::Command(Command::Table(first - 0x30)), // CT1 to CT4
        (0x30..=0x36, 0x41) => Said::Command(Command::FlashMode(first - 0x30)), // IVF, RIF, FF1 to FF3, ICF, DCF
        (0x31, 0x50) => Said::Command(Command::Protect(true)), // PMS
        (0x31, 0x51) => Said::Command(Command::Protect(false)), // PMC
        (0x32, 0x53) => Said::Command(Command::Marked(true)), // MMS
        (0x32, 0x54) => Said::Command(Command::Marked(false)), // MMT
        (0x30, 0x60) => Said::Command(Command::ScrollUp), // SCU
        (0x31, 0x60) => Said::Command(Command::ScrollDown), // SCD
        (0x32, 0x60) => Said::Command(Command::Implicit(true)), // AIS
        (0x33, 0x60) => Said::Command(Command::Implicit(false)), // DIS
        _ => Said::Refused(Reason::UnknownCsi),
    }
}

/// A scrolling area is created or deleted: two rows of two digits, a semicolon between them, and the
/// final byte.
#[tactic(auto, unfolding(crate::specs::Csi::area))]
fn area(bytes: &[u8]) -> Said
    ensures { result ≡ area bytes.now }
{
    match bytes {
        [a, b, 0x3B, c, d, last @ 0x55..=0x56]
            if is_digit(*a) && is_digit(*b) && is_digit(*c) && is_digit(*d) => {
            let top = two_digits(*a, *b);
            let bottom = two_digits(*c, *d);
            if !(1 <= top && top <= bottom && bottom <= 24) {
                Said::Refused(Reason::BadParameter)
            } else if *last == 0x55 {
                Said::Command(Command::AreaCreate(top, bottom)) // CSA
            } else {
                Said::Command(Command::AreaDelete(top, bottom)) // DSA
            }
        }
        _ => Said::Refused(Reason::UnknownCsi),
    }
}

/// What a whole control sequence says, after CSI. A row of one digit is read as with 3/0 before it.
#[tactic(auto, unfolding(crate::specs::Csi::csi))]
pub fn csi(bytes: &[u8]) -> Said
    ensures { result ≡ csi bytes.now }
{
    match bytes {
        [0x42] => Said::Command(Command::StopConceal), // STC
        [_] => Said::Refused(Reason::UnknownCsi),
        [first, last] => csi_2(*first, *last),
        [b, s, d, last] => area(&[0x30, *b, *s, 0x30, *d, *last]),
        [a, b, 0x3B, d, last] => area(&[*a, *b, 0x3B, 0x30, *d, *last]),
        [a, b, c, d, last] => area(&[0x30, *a, *b, *c, *d, *last]),
        _ => area(bytes),
    }
}
