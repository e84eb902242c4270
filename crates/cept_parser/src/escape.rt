ghost use Rattle.std.specs.Prelude.{◌≡◌, [], ◌∷◌};
ghost use Rattle.cept_parser.specs.Escape.{is_c1_final, escape};

use cept_codes::{C1Set, Command, Reason, Said, SetId};

/// A C1 code in its form of two bytes: 4/0 to 5/15 without 5/11.
fn is_c1_final(byte: u8) -> bool
    ensures { result ≡ is_c1_final byte }
{
    0x40 <= byte && byte <= 0x5F && byte != 0x5B
}

/// ESC and a final byte.
#[tactic(auto, unfolding(crate::specs::Escape::escape))]
fn escape_1(last: u8) -> Said
    ensures { result ≡ escape (last ∷ []) }
{
    match last {
        _ if is_c1_final(last) => Said::Command(Command::C1(last - 0x40)), // C1 codes
        0x6E => Said::Command(Command::LockLeft(2)), // LS2
        0x6F => Said::Command(Command::LockLeft(3)), // LS3
        0x7C => Said::Command(Command::LockRight(3)), // LS3R
        0x7D => Said::Command(Command::LockRight(2)), // LS2R
        0x7E => Said::Command(Command::LockRight(1)), // LS1R
        _ => Said::Refused(Reason::UnknownEscape),
    }
}

/// ESC, an intermediate byte and a final byte: a C1 set is designated, or a set to G0 to G3.
#[tactic(auto, unfolding(crate::specs::Escape::escape))]
fn escape_2(first: u8, last: u8) -> Said
    ensures { result ≡ escape (first ∷ last ∷ []) }
{
    match (first, last) {
        (0x22, 0x40) => Said::Command(Command::DesignateC1(C1Set::Serial)), // serial C1 set
        (0x22, 0x41) => Said::Command(Command::DesignateC1(C1Set::Parallel)), // parallel C1 set
        (0x28..=0x2B, 0x40) => Said::Command(Command::Designate(first - 0x28, SetId::P)), // primary set
        (0x28..=0x2B, 0x62) => Said::Command(Command::Designate(first - 0x28, SetId::S)), // supplementary set
        (0x28..=0x2B, 0x63) => Said::Command(Command::Designate(first - 0x28, SetId::M)), // first mosaic set
        (0x28..=0x2B, 0x64) => Said::Command(Command::Designate(first - 0x28, SetId::N)), // second mosaic set
        _ => Said::Refused(Reason::UnknownEscape),
    }
}

/// ESC, two intermediate bytes and a final byte: an attribute of the full screen (no size) or of the
/// full row, or the downloaded set for G0 to G3.
#[tactic(auto, unfolding(crate::specs::Escape::escape))]
fn escape_3(first: u8, second: u8, last: u8) -> Said
    ensures { result ≡ escape (first ∷ second ∷ last ∷ []) }
{
    match (first, second, last) {
        (0x23, 0x20, 0x4C..=0x4F) => Said::Refused(Reason::UnknownEscape), // sizes
        (0x23, 0x20, _) if is_c1_final(last) => Said::Command(Command::FullScreen(last - 0x40)), // full screen
        (0x23, 0x21, _) if is_c1_final(last) => Said::Command(Command::FullRow(last - 0x40)), // full row
        (0x28..=0x2B, 0x20, 0x40) => Said::Command(Command::Designate(first - 0x28, SetId::D)), // DRCS
        _ => Said::Refused(Reason::UnknownEscape),
    }
}

/// What a whole escape sequence says, after ESC.
#[tactic(auto, unfolding(crate::specs::Escape::escape))]
pub fn escape(bytes: &[u8]) -> Said
    ensures { result ≡ escape bytes.now }
{
    match bytes {
        [last] => escape_1(*last),
        [first, last] => escape_2(*first, *last),
        [first, second, last] => escape_3(*first, *second, *last),
        _ => Said::Refused(Reason::UnknownEscape),
    }
}
